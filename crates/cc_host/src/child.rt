// A child of a host in memory, and what it does in a turn.
ghost use Rattle.std.specs.Prelude.{◌≡◌, ◌≤◌, ◌+◌, length, map, vec_len, is_some, Some, None, IfOk, OnOk, [], ◌∷◌, ◌++◌, if◌then◌else◌};
ghost use Rattle.std.specs.List.{flat_map};
ghost use Rattle.std.specs.Option.{option_copied};
ghost use Rattle.cc_host.specs.Event.{reported};
ghost use Rattle.cc_host.specs.Script.{is_met, turns_out, script_at};
ghost use Rattle.cc_host.specs.ChildLog.{full, piece_next, unread_next, ends_next, news_by, news_of, has_news, child_after, left_by};

use crate::script::Scripted;
use crate::{Event, News, Status};
use cc_text::{Bytes, Mem, NoMemory};
use std::alloc::Global;

/// A child that runs: its id, how many turns it ran through, whether its standard error failed to be read, and the place of its
/// script, where it has one.
#[derive(Clone, Copy, Debug)]
pub struct RunningChild {
    pub id: u64,
    pub polls: u64,
    pub mute: bool,
    pub place: Option<usize>,
}

// A piece that isn't empty.
fn full(piece: &Bytes) -> Mem<Option<Bytes>>
    ensures { IfOk result (λ o. o ≡ full (Some piece.now)) }
{
    if piece.as_slice().is_empty() {
        Ok(None)
    } else {
        Ok(Some(piece.try_clone()?))
    }
}

// The piece that a child gives next.
fn piece_next(child: RunningChild, script: &Scripted) -> Mem<Option<Bytes>>
    ensures { IfOk result (λ o. o ≡ piece_next child script.now) }
{
    if child.mute {
        return Ok(None);
    }
    match script.script.pieces.get(child.polls as usize) {
        Some(piece) => full(piece),
        None => Ok(None),
    }
}

// Whether the standard error of a child fails to be read right after its pieces.
fn unread_next(child: RunningChild, script: &Scripted) -> bool
    ensures { result ≡ unread_next child script.now }
{
    script.script.unread && child.polls == script.script.pieces.len() as u64
}

fn is_met(script: &Scripted) -> bool
    ensures { result ≡ is_met script.now }
{
    match script.script.after {
        Some(_) => script.met,
        None => true,
    }
}

fn turns_out(script: &Scripted) -> u64
    ensures { result ≡ turns_out script.now }
{
    script.script.pieces.len() as u64 + u64::from(script.script.unread)
}

// Whether a child ends at its turn of this number.
fn ends_at(turn: u64, child: RunningChild, script: &Scripted) -> bool
    requires { turn ≡ child.polls + 1 }
    ensures { result ≡ ends_next child script.now }
{
    turns_out(script) <= turn && script.script.turns <= turn && is_met(script)
}

fn end_of(ends: bool, status: Status) -> Option<Status>
    ensures { result ≡ (if ends then Some status else None) }
{
    if ends { Some(status) } else { None }
}

// What a child does in its next turn, of this number.
fn news_by(turn: u64, child: RunningChild, script: Option<&Scripted>) -> Mem<News>
    requires { turn ≡ child.polls + 1 }
    ensures { IfOk result (λ n. n ≡ news_by child (option_copied script.entry)) }
{
    let id = child.id;
    match script {
        Some(script) => Ok(News {
            id,
            piece: piece_next(child, script)?,
            unread: unread_next(child, script),
            ended: end_of(ends_at(turn, child, script), script.script.status),
        }),
        None => Ok(News {
            id,
            piece: None,
            unread: false,
            ended: Some(Status::Code(0)),
        }),
    }
}

fn script_at(scripts: &[Scripted], place: Option<usize>) -> Option<&Scripted>
    ensures { option_copied result ≡ script_at scripts.now place }
{
    match place {
        Some(place) => scripts.get(place),
        None => None,
    }
}

// What a child does in its next turn. One that ran through as many turns as can be counted is refused another.
fn news_of(child: RunningChild, scripts: &[Scripted]) -> Mem<News>
    ensures { IfOk result (λ n. n ≡ news_of scripts.now child) }
{
    let Some(turn) = child.polls.checked_add(1) else {
        return Err(NoMemory);
    };
    news_by(turn, child, script_at(scripts, child.place))
}

/// Whether a child did something in a turn.
pub fn has_news(news: &News) -> bool
    ensures { result ≡ has_news news.now }
{
    news.piece.is_some() || news.unread || news.ended.is_some()
}

/// What each child of a host in memory does in a turn, in start order.
#[tactic(auto, using(crate::proofs::ChildLemmas::told_more))]
pub fn told_by(alloc: Global, children: &[RunningChild], scripts: &[Scripted]) -> Mem<Vec<News>>
    ensures { IfOk result (λ v. v.items ≡ map (news_of scripts.now) children.now) }
{
    let mut list = Vec::new(alloc);
    for child in children {
        list.push(news_of(*child, scripts)?)?;
    }
    Ok(list)
}

// Adds a child again that runs on after what it did.
fn add_child(list: &mut Vec<RunningChild>, child: RunningChild, news: &News) -> Mem<()>
    ensures { OnOk result (list.new.items ≡ list.old.items ++ child_after child news.now) }
{
    if news.ended.is_some() {
        return Ok(());
    }
    let Some(polls) = child.polls.checked_add(1) else {
        return Err(NoMemory);
    };
    list.push(RunningChild {
        id: child.id,
        polls,
        mute: child.mute || news.unread,
        place: child.place,
    })?;
    Ok(())
}

/// The children that run on after a turn in which each did what is told.
#[tactic(auto, using(crate::proofs::ChildLemmas::left_more, crate::proofs::ChildLemmas::left_short))]
pub fn left_by(alloc: Global, children: &[RunningChild], told: &[News]) -> Mem<Vec<RunningChild>>
    requires { length told.now ≡ length children.now }
    ensures children { IfOk result (λ v. v.items ≡ left_by children.now told.now) }
    ensures len { IfOk result (λ v. vec_len v ≤ length children.now) }
{
    let mut list = Vec::new(alloc);
    for at in 0..children.len() {
        add_child(&mut list, children[at], &told[at])?;
    }
    Ok(list)
}

fn add_events(events: &mut Vec<Event>, news: &News) -> Mem<()>
    ensures { OnOk result (events.new.items ≡ events.old.items ++ reported news.now) }
{
    let id = news.id;
    if let Some(piece) = &news.piece {
        let bytes = piece.try_clone()?;
        events.push(Event::Heard { id, bytes })?;
    }
    if news.unread {
        events.push(Event::Unread { id })?;
    }
    if let Some(status) = news.ended {
        events.push(Event::Ended { id, status })?;
    }
    Ok(())
}

/// The events of a turn after the turn itself.
pub fn events_of(alloc: Global, news: &[News]) -> Mem<Vec<Event>>
    ensures { IfOk result (λ v. v.items ≡ flat_map reported news.now) }
{
    let mut events = Vec::new(alloc);
    for item in news {
        add_events(&mut events, item)?;
    }
    Ok(events)
}
