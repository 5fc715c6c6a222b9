// Tokens that a client hands out, through the lock of their pool.
use cc_jobs::{Inherited, InheritedPool, JobFault, Jobs, MemoryClient, Take};
use std::alloc::AllocGlobal;
use std::process::Abort;
use std::sync::Wait;
use std::test::Fail;

fn check_implicit<R: AllocGlobal + Wait + Abort + Drop + Copy>(rt: R) -> Result<(), Fail> {
    let client = MemoryClient::new(rt.alloc(), 1);
    let pool = InheritedPool::new(rt, Inherited::new(client));
    let mut seat = pool.seat();
    assert_eq!(rt; pool.take(&mut seat), Ok(Take::Token));
    assert_eq!(rt; pool.take(&mut seat), Ok(Take::Token));
    assert_eq!(rt; pool.take(&mut seat), Ok(Take::Pending));
    pool.give(&mut seat);
    // The client has none yet, so this is the implicit one.
    assert_eq!(rt; pool.take(&mut seat), Ok(Take::Token));
    assert_eq!(rt; pool.take(&mut seat), Ok(Take::Pending));
    pool.give(&mut seat);
    pool.give(&mut seat);
    assert_eq!(rt; pool.held(&seat), 0);
    assert_eq!(rt; pool.take(&mut seat), Ok(Take::Token));
    assert_eq!(rt; pool.take(&mut seat), Ok(Take::Token));
    Ok(())
}

#[test]
fn the_implicit_token_comes_first_and_is_home_first(rt: HostRuntime) -> Result<(), Fail> {
    for _ in 0..50 {
        check_implicit(rt)?;
    }
    Ok(())
}

fn check_refused<R: AllocGlobal + Wait + Abort + Drop + Copy>(rt: R) -> Result<(), Fail> {
    let mut client = MemoryClient::new(rt.alloc(), 1);
    client.fail_release(1)?;
    let pool = InheritedPool::new(rt, Inherited::new(client));
    let mut seat = pool.seat();
    assert_eq!(rt; pool.take(&mut seat), Ok(Take::Token));
    assert_eq!(rt; pool.take(&mut seat), Ok(Take::Token));
    assert_eq!(rt; pool.take(&mut seat), Ok(Take::Pending));
    pool.give(&mut seat);
    pool.give(&mut seat);
    assert_eq!(rt; pool.held(&seat), 0);
    Ok(())
}

#[test]
fn a_token_that_the_client_refuses_counts_as_given(rt: HostRuntime) -> Result<(), Fail> {
    for _ in 0..50 {
        check_refused(rt)?;
    }
    Ok(())
}

fn check_failing<R: AllocGlobal + Wait + Abort + Drop + Copy>(rt: R) -> Result<(), Fail> {
    let mut client = MemoryClient::new(rt.alloc(), 1);
    client.fail_acquire(1)?;
    client.fail_release(1)?;
    let pool = InheritedPool::new(rt, Inherited::new(client));
    let mut seat = pool.seat();
    assert_eq!(rt; pool.take(&mut seat), Ok(Take::Token));
    assert_eq!(rt; pool.take(&mut seat), Err(JobFault));
    assert_eq!(rt; pool.held(&seat), 1);
    assert_eq!(rt; pool.take(&mut seat), Ok(Take::Token));
    assert_eq!(rt; pool.take(&mut seat), Ok(Take::Pending));
    pool.give(&mut seat);
    pool.give(&mut seat);
    assert_eq!(rt; pool.held(&seat), 0);
    assert_eq!(rt; pool.take(&mut seat), Ok(Take::Token));
    assert_eq!(rt; pool.take(&mut seat), Ok(Take::Pending));
    Ok(())
}

#[test]
fn a_client_that_fails_is_told_and_what_it_refuses_counts_as_given(
    rt: HostRuntime,
) -> Result<(), Fail> {
    for _ in 0..50 {
        check_failing(rt)?;
    }
    Ok(())
}
