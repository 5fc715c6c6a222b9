// Pools, and their sizes.
ghost use Rattle.cc_jobs.specs.SharedSeat.{IsSeatOf};

use crate::CallError;
use crate::answer::{Answer, number, push, push_number};
use crate::given::{Read, small_number, step, vars_in};
use cc_env::EnvSnapshot;
use cc_jobs::{JobFault, Jobs, OneCaller, SharedPool, SharedSeat, Take};
use std::alloc::Global;

// The variables between blanks.
fn pool_size(alloc: Global, given: &[String]) -> Answer {
    let vars = vars_in(alloc, crate::given::one_text(given)?)?;
    let env = EnvSnapshot::from_vars(alloc, &vars)?;
    number(alloc, u64::from(cc_jobs::pool_size(&env)))
}

fn told(answer: Result<Take, JobFault>) -> &'static str {
    match answer {
        Ok(Take::Token) => "token",
        Ok(Take::Pending) => "pending",
        Err(JobFault) => "fault",
    }
}

fn take<J: Jobs>(jobs: &J, seat: &mut J::Seat) -> Read<&'static str>
    requires { J.fits jobs.now seat.old }
    ensures { J.fits jobs.now seat.new }
{
    if jobs.held(seat) == u64::MAX {
        return Err(CallError::Given);
    }
    Ok(told(jobs.take(seat)))
}

fn give<J: Jobs>(jobs: &J, seat: &mut J::Seat) -> Read<()>
    requires { J.fits jobs.now seat.old }
    ensures { J.fits jobs.now seat.new }
{
    if jobs.held(seat) == 0 {
        return Err(CallError::Given);
    }
    jobs.give(seat);
    Ok(())
}

fn pool_step<J: Jobs>(jobs: &J, seat: &mut J::Seat, texts: &mut Vec<String>, verb: &str) -> Read<()>
    requires { J.fits jobs.now seat.old }
    ensures { J.fits jobs.now seat.new }
{
    match verb {
        "take" => {
            let answer = take(jobs, seat)?;
            Ok(push(texts, answer)?)
        }
        "give" => give(jobs, seat),
        "held" => Ok(push_number(texts, jobs.held(seat))?),
        _ => Err(CallError::Given),
    }
}

fn pool_steps(texts: &mut Vec<String>, total: u32, steps: &[String]) -> Read<()> {
    if total == 0 {
        return Err(CallError::Given);
    }
    let (jobs, mut seat) = OneCaller::new(total);
    for step in steps {
        pool_step(&jobs, &mut seat, texts, step.as_str())?;
    }
    Ok(())
}

// The tokens of the pool, and steps: `take`; `give`; `held`. What `take` and `held` answer.
fn one_caller(alloc: Global, given: &[String]) -> Answer {
    let [total, steps @ ..] = given else {
        return Err(CallError::Given);
    };
    let mut texts = Vec::new(alloc);
    pool_steps(&mut texts, small_number(total.as_str())?, steps)?;
    Ok(texts)
}

// A pool on one word, with two seats.
#[derive(Drop)]
struct Shared {
    pool: SharedPool,
    first: SharedSeat,
    second: SharedSeat,
    ghost fits: { IsSeatOf first pool × IsSeatOf second pool },
}

impl Shared {
    fn new(alloc: Global, total: u32) -> Read<Shared> {
        if total == 0 {
            return Err(CallError::Given);
        }
        let (pool, mut first) = SharedPool::new(alloc, total)?;
        let second = pool.split(&mut first);
        Ok(Shared {
            pool,
            first,
            second,
        })
    }

    fn step(&mut self, texts: &mut Vec<String>, text: &str) -> Read<()> {
        let (seat, verb) = step(text);
        match seat {
            "first" => pool_step(&self.pool, &mut self.first, texts, verb),
            "second" => pool_step(&self.pool, &mut self.second, texts, verb),
            _ => Err(CallError::Given),
        }
    }

    fn close(self) -> Read<u64> {
        let Shared {
            pool,
            mut first,
            second,
        } = self;
        if pool.held(&second) != 0 {
            return Err(CallError::Given);
        }
        pool.join(&mut first, second);
        Ok(pool.close(first))
    }
}

// The tokens of the pool, and steps: `take`, `give` or `held`, behind `first` or `second` for the seat. What `take` and
// `held` answer, and at the end, where the second seat was joined to the first, what closing the pool answers.
fn shared_pool(alloc: Global, given: &[String]) -> Answer {
    let [total, steps @ ..] = given else {
        return Err(CallError::Given);
    };
    let mut texts = Vec::new(alloc);
    let mut shared = Shared::new(alloc, small_number(total.as_str())?)?;
    for step in steps {
        shared.step(&mut texts, step.as_str())?;
    }
    push_number(&mut texts, shared.close()?)?;
    Ok(texts)
}

pub fn call(alloc: Global, name: &str, given: &[String]) -> Option<Answer> {
    match name {
        "pool_size" => Some(pool_size(alloc, given)),
        "one_caller" => Some(one_caller(alloc, given)),
        "shared_pool" => Some(shared_pool(alloc, given)),
        _ => None,
    }
}
