// Reads the words of a fleet: groups, each of a name and of settings.
ghost use Rattle.std.specs.Prelude.{◌≡◌, ◌⊎◌, ◌<◌, ◌+◌, ◌^◌, ◌++◌, [], ◌∷◌, Ok, Some, length, map, option_map, IfOk, IfErr, OnOk, string_bytes};
ghost use Rattle.cc_build.specs.Build.{fresh_build};
ghost use Rattle.cc_fleet.specs.Fleet.{member_seen, members_seen};
ghost use Rattle.cc_command.specs.FleetWords.{behind_fleet as words_behind, is_gap, groups_of as groups_in, group_bad, groups_bad, span, bytes_of, IsMember, AreMembers, read_groups, read_fleet};
ghost use Rattle.cc_command.specs.Read.{bad_word, refusal_of};
ghost use Rattle.cc_command.specs.Read.Wish.{Fleets};
ghost use Rattle.cc_command.specs.declared.words.ReadError.TheVariants.{NoMemory as WantsMemory};

use crate::settings::{bad, fill_settings};
use crate::words::{ReadError, WordCause};
use cc_build::Build;
use cc_fleet::Member;
use cc_host::World;
use cc_text::{Mem, Text};
use std::alloc::Global;

// Whether the word parts groups.
fn is_gap(word: &str) -> bool
    ensures { result ≡ is_gap word.now }
{
    word == "--"
}

// The words in front of the first that parts groups, and those behind each.
fn groups_of(alloc: Global, words: &[String]) -> Mem<Vec<&[String]>>
    ensures { IfOk result
        (λ groups. bytes_of groups.items ≡ groups_in (map string_bytes words.now)) }
{
    let groups = words.split(|word| is_gap(word.as_str())).collect(alloc)?;
    Ok(groups)
}

// A build for a member, equal to this one. The two share what they learn of compilers.
fn build_like<W: World>(fresh: &Build<W>) -> Result<Build<W>, ReadError>
    ensures same { IfOk result (λ build. build ≡ fresh.now) }
    ensures refused { IfErr result (λ e. e ≡ WantsMemory) }
{
    match fresh.try_clone() {
        Ok(build) => Ok(build),
        Err(_) => Err(ReadError::NoMemory),
    }
}

// Reads a group, whose first word has this place: a name, and settings on a build like this one, of which nothing was
// set.
fn read_member<W: World>(
    alloc: Global,
    fresh: &Build<W>,
    group: &[String],
    place: u64,
) -> Result<Member<W>, ReadError>
    requires fresh { fresh.now ≡ fresh_build }
    requires fits { place + length group.now < 2 ^ 64 }
    ensures ok { IfOk result
        (λ member. IsMember place (map string_bytes group.now) (member_seen member)) }
    ensures refused { IfErr result (λ e. (e ≡ WantsMemory)
        ⊎ (bad_word (group_bad place (map string_bytes group.now)) ≡ Some e)) }
{
    match group {
        [] => Err(bad(place, WordCause::NoName)),
        [name, settings @ ..] => {
            let output = Text::of(alloc, name.as_str())?;
            let build = build_like(fresh)?;
            let build = fill_settings(build, settings, place + 1, false)?;
            Ok(Member { output, build })
        }
    }
}

fn push_member<W: World>(members: &mut Vec<Member<W>>, member: Member<W>) -> Mem<()>
    ensures { OnOk result (members.new.items ≡ members.old.items ++ member ∷ []) }
{
    members.push(member)?;
    Ok(())
}

// Reads groups, where the first word of the first has place 2.
fn read_members<W: World>(
    alloc: Global,
    fresh: &Build<W>,
    groups: &[&[String]],
) -> Result<Vec<Member<W>>, ReadError>
    requires fresh { fresh.now ≡ fresh_build }
    requires fits { 2 + span (bytes_of groups.now) < 2 ^ 64 }
    ensures ok { IfOk result
        (λ members. AreMembers 2 (bytes_of groups.now) (members_seen members.items)) }
    ensures refused { IfErr result (λ e. (e ≡ WantsMemory)
        ⊎ (bad_word (groups_bad 2 (bytes_of groups.now)) ≡ Some e)) }
{
    let mut members = Vec::new(alloc);
    let mut place = 2;
    for group in groups {
        let member = read_member(alloc, fresh, group, place)?;
        push_member(&mut members, member)?;
        place += group.len() as u64 + 1;
    }
    Ok(members)
}

// Reads the groups of words: in front of the first stands no word, and there is one at least.
fn read_groups<W: World>(
    alloc: Global,
    fresh: &Build<W>,
    groups: &[&[String]],
) -> Result<Vec<Member<W>>, ReadError>
    requires fresh { fresh.now ≡ fresh_build }
    requires fits { 2 + span (bytes_of groups.now) < 2 ^ 64 }
    ensures ok { IfOk result (λ members.
        read_groups (bytes_of groups.now) ≡ Ok (Fleets (members_seen members.items))) }
    ensures refused { IfErr result (λ e. (e ≡ WantsMemory)
        ⊎ (refusal_of (read_groups (bytes_of groups.now)) ≡ Some e)) }
{
    match groups {
        [front, ..] if !front.is_empty() => Err(bad(1, WordCause::UnknownKey)),
        [_, more @ ..] if !more.is_empty() => read_members(alloc, fresh, more),
        _ => Err(bad(1, WordCause::NoName)),
    }
}

/// Reads the words behind `fleet`: `-- NAME key=value ...`, once for each member, where the words behind a name are
/// those of `compile` without `database`. The builds of the members share what they learn of compilers.
///
/// Refused at the first bad word, with its place from 0, which is that of `fleet`: a missing group or name, at the
/// place where it should stand; a word in front of the first group; or a word of a group. And for memory.
pub(crate) fn read_fleet<W: World>(
    alloc: Global,
    words: &[String],
) -> Result<Vec<Member<W>>, ReadError>
    ensures ok { IfOk result (λ members. read_fleet (map string_bytes words.now)
        ≡ Ok (Fleets (members_seen members.items))) }
    ensures refused { IfErr result (λ e. (e ≡ WantsMemory)
        ⊎ (refusal_of (read_fleet (map string_bytes words.now)) ≡ Some e)) }
{
    let groups = groups_of(alloc, words)?;
    match Build::new(alloc) {
        Ok(fresh) => read_groups(alloc, &fresh, groups.as_slice()),
        Err(_) => Err(ReadError::NoMemory),
    }
}

/// The words behind `fleet`, where that is the first.
pub(crate) fn behind_fleet(words: &[String]) -> Option<&[String]>
    ensures { words_behind (map string_bytes words.now)
        ≡ option_map (λ behind. map string_bytes behind.now) result }
{
    match words {
        [first, behind @ ..] if first.as_str() == "fleet" => Some(behind),
        _ => None,
    }
}
