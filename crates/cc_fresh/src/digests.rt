// Digests of bytes and of commands.
ghost use Rattle.std.specs.Prelude.{◌≡◌, ◌<◌, ◌++◌, ℕ, List, flat_map, IfOk, OnOk};
ghost use Rattle.std.specs.Option.{option_copied};
ghost use Rattle.sha2.specs.Hashers.{Holds256};
ghost use Rattle.cc_text.specs.Hex.{hex_digit};
ghost use Rattle.cc_fresh.specs.Digests.{two_digits, hex, digest, closed, closed_pair, or_nothing, command_digest};

use cc_host::Command;
use cc_text::{Mem, Text};
use sha2::{Digest, Sha256};
use std::alloc::Global;

// A digit of base 16, in lower case.
fn hex_digit(digit: u8) -> char
    requires { digit < 16 }
    ensures { result ≡ hex_digit digit }
{
    char::from_digit(u32::from(digit), 16).unwrap()
}

// Adds the two digits of a byte.
fn push_byte(text: &mut Text, byte: u8) -> Mem<()>
    ensures { OnOk result (text.new ≡ text.old ++ two_digits byte) }
{
    text.push(hex_digit(byte / 16))?;
    text.push(hex_digit(byte % 16))
}

// Two digits for each byte.
fn hex(alloc: Global, bytes: &[u8]) -> Mem<Text>
    ensures { IfOk result (λ text. text ≡ hex bytes.now) }
{
    let mut text = Text::new(alloc);
    for byte in bytes {
        push_byte(&mut text, *byte)?;
    }
    Ok(text)
}

/// The digest of some bytes: SHA-256, by NIST's FIPS 180-4, as 64 hexadecimal digits in lower case. Only want of memory
/// refuses.
#[tactic(auto, unfolding(crate::specs::Digests::digest))]
pub fn digest(alloc: Global, bytes: &[u8]) -> Mem<Text>
    ensures { IfOk result (λ text. text ≡ digest bytes.now) }
{
    let found = Sha256::digest(bytes);
    hex(alloc, &found)
}

// Takes in a text, and the byte that closes it.
fn take_closed(hasher: &mut Sha256, text: &str)
    ensures { (m : List ℕ) → Holds256 hasher.old m → Holds256 hasher.new (m ++ closed text.now) }
{
    hasher.update(text);
    hasher.update([0xff]);
}

// Takes in texts, each with the byte that closes it.
fn take_texts(hasher: &mut Sha256, texts: &[Text])
    ensures { (m : List ℕ) → Holds256 hasher.old m
        → Holds256 hasher.new (m ++ flat_map closed texts.now) }
{
    for text in texts {
        take_closed(hasher, text.as_str());
    }
}

// Takes in names and values, each with the byte that closes it.
fn take_pairs(hasher: &mut Sha256, pairs: &[(Text, Text)])
    ensures { (m : List ℕ) → Holds256 hasher.old m
        → Holds256 hasher.new (m ++ flat_map closed_pair pairs.now) }
{
    for (name, value) in pairs {
        take_closed(hasher, name.as_str());
        take_closed(hasher, value.as_str());
    }
}

// Takes in a text, where there is one.
fn take_text(hasher: &mut Sha256, text: Option<&str>)
    ensures { (m : List ℕ) → Holds256 hasher.old m
        → Holds256 hasher.new (m ++ or_nothing (option_copied text.entry)) }
{
    if let Some(text) = text {
        hasher.update(text);
    }
}

/// The digest of a command: of its program, its words, its whole environment and its folder, parted by bytes that no
/// text has. Only want of memory refuses.
pub fn command_digest(alloc: Global, cmd: &Command) -> Mem<Text>
    ensures { IfOk result (λ text. text ≡ command_digest cmd.now) }
{
    let mut hasher = Sha256::new();
    take_closed(&mut hasher, cmd.get_program());
    take_texts(&mut hasher, cmd.get_args().as_slice());
    hasher.update([0xfe]);
    take_pairs(&mut hasher, cmd.get_envs().as_slice());
    hasher.update([0xfe]);
    take_text(&mut hasher, cmd.get_current_dir());
    let text = hex(alloc, &hasher.finalize())?;
    Ok(text)
}

#[cfg(test)]
mod tests {
    use super::*;
    use std::test::Fail;

    #[test]
    fn digests(rt: HostRuntime) -> Result<(), Fail> {
        let alloc = rt.alloc();
        for (bytes, digits) in [
            (
                "",
                "e3b0c44298fc1c149afbf4c8996fb92427ae41e4649b934ca495991b7852b855",
            ),
            (
                "abc",
                "ba7816bf8f01cfea414140de5dae2223b00361a396177a9cb410ff61f20015ad",
            ),
        ] {
            assert_eq!(rt; digest(alloc, bytes.as_bytes())?.as_str(), digits);
        }
        Ok(())
    }

    // The command's bytes by hand, and their digest.
    #[test]
    fn digest_of_a_command(rt: HostRuntime) -> Result<(), Fail> {
        let alloc = rt.alloc();
        let mut cmd = Command::new(alloc, "cc")?;
        cmd.arg("-c")?;
        cmd.arg("")?;
        cmd.env("A", "b")?;
        let bare = digest(alloc, b"cc\xff-c\xff\xff\xfeA\xffb\xff\xfe")?;
        assert_eq!(rt; command_digest(alloc, &cmd)?.as_str(), bare.as_str());
        cmd.current_dir("/o")?;
        let whole = digest(alloc, b"cc\xff-c\xff\xff\xfeA\xffb\xff\xfe/o")?;
        assert_eq!(rt; command_digest(alloc, &cmd)?.as_str(), whole.as_str());
        Ok(())
    }
}
