// Compile commands as the text of a compilation database.
ghost use Rattle.std.specs.Prelude.{◌≡◌, ◌<◌, ◌++◌, List, IfOk, OnOk, OnErr, flat_map, codes, encode_utf8, string_bytes};
ghost use Rattle.std.specs.List.{join_by};
ghost use Rattle.cc_text.specs.Hex.{hex_digit};
ghost use Rattle.cc_host.specs.CompileCommand.{CompileCommandSeen};
ghost use Rattle.cc_db.specs.Database.{control, escaped, string, next_string, array, entry, entry_line, next_entry, database};

use cc_host::CompileCommand;
use cc_text::{Mem, Text, Words};
use std::alloc::Global;

/// A digit of base 16, in lower case.
fn hex_digit(digit: u8) -> char
    requires { digit < 16 }
    ensures { result ≡ hex_digit digit }
{
    char::from_digit(u32::from(digit), 16).unwrap()
}

/// Adds the escape of a control character.
#[tactic(auto, unfolding(crate::specs::Database::control))]
fn push_control(text: &mut Text, code: u8) -> Mem<()>
    requires { code < 32 }
    ensures { OnOk result (text.new ≡ text.old ++ control code) }
{
    text.push_str("\\u00")?;
    text.push(hex_digit(code / 16))?;
    text.push(hex_digit(code % 16))
}

/// Adds a character as it stands in a string.
#[tactic(auto, using(crate::proofs::EscapeLemmas::escapes))]
fn push_escaped(text: &mut Text, c: char) -> Mem<()>
    ensures { OnOk result (text.new ≡ text.old ++ escaped (encode_utf8 c)) }
{
    match c {
        '"' => text.push_str("\\\""),
        '\\' => text.push_str("\\\\"),
        '\0'..='\u{1f}' => push_control(text, c as u8),
        _ => text.push(c),
    }
}

/// Adds a string.
fn push_string(text: &mut Text, s: &str) -> Mem<()>
    ensures { OnOk result (text.new ≡ text.old ++ string s.now) }
{
    text.push_str("\"")?;
    for c in s.chars() {
        push_escaped(text, c)?;
    }
    text.push_str("\"")?;
    Ok(())
}

/// Adds each string, after a comma and a space.
fn push_next_strings(text: &mut Text, words: &[Text]) -> Mem<()>
    ensures { OnOk result (text.new ≡ text.old ++ flat_map next_string words.now) }
{
    for word in words {
        text.push_str(", ")?;
        push_string(text, word.as_str())?;
    }
    Ok(())
}

/// Adds the strings, with a comma and a space between each two.
fn push_strings(text: &mut Text, words: &[Text]) -> Mem<()>
    ensures { OnOk result (text.new ≡ text.old ++ join_by string (codes ", ") words.now) }
{
    match words {
        [] => Ok(()),
        [first, others @ ..] => {
            push_string(text, first.as_str())?;
            push_next_strings(text, others)
        }
    }
}

/// Adds an array of strings.
#[tactic(auto, unfolding(crate::specs::Database::array))]
fn push_array(text: &mut Text, words: &Words) -> Mem<()>
    ensures { OnOk result (text.new ≡ text.old ++ array words.now) }
{
    text.push_str("[")?;
    push_strings(text, words.as_slice())?;
    text.push_str("]")
}

/// Adds a member whose value is a string, with the text before that.
fn push_member(text: &mut Text, front: &str, s: &str) -> Mem<()>
    ensures { OnOk result (text.new ≡ text.old ++ front.now ++ string s.now) }
{
    text.push_str(front)?;
    push_string(text, s)?;
    Ok(())
}

/// Adds an entry.
#[tactic(auto, unfolding(crate::specs::Database::entry))]
fn push_entry(text: &mut Text, command: &CompileCommand) -> Mem<()>
    ensures { OnOk result (text.new ≡ text.old ++ entry command.now) }
{
    push_member(text, "  {\n    \"directory\": ", command.directory())?;
    push_member(text, ",\n    \"file\": ", command.file())?;
    text.push_str(",\n    \"arguments\": ")?;
    push_array(text, command.arguments())?;
    push_member(text, ",\n    \"output\": ", command.output())?;
    text.push_str("\n  }")?;
    Ok(())
}

/// Adds each entry, after a comma and a line feed.
fn push_next_entries(text: &mut Text, commands: &[CompileCommand]) -> Mem<()>
    ensures { OnOk result (text.new ≡ text.old ++ flat_map next_entry commands.now) }
{
    for command in commands {
        text.push_str(",\n")?;
        push_entry(text, command)?;
    }
    Ok(())
}

/// Adds the entries, each on lines of its own, with a comma between each two.
fn push_entries(text: &mut Text, commands: &[CompileCommand]) -> Mem<()>
    ensures { OnOk result (text.new ≡ text.old ++ join_by entry_line (codes ",") commands.now) }
{
    match commands {
        [] => Ok(()),
        [first, others @ ..] => {
            text.push_str("\n")?;
            push_entry(text, first)?;
            push_next_entries(text, others)
        }
    }
}

/// The database of some commands.
#[tactic(auto, unfolding(crate::specs::Database::database))]
fn database_of(alloc: Global, commands: &[CompileCommand]) -> Mem<Text>
    ensures { IfOk result (λ text. text ≡ database commands.now) }
{
    let mut text = Text::of(alloc, "[")?;
    push_entries(&mut text, commands)?;
    text.push_str("\n]\n")?;
    Ok(text)
}

/// Adds the compilation database of the commands to the text: a JSON array of one object for each command, in order,
/// with the members `directory`, `file`, `arguments` and `output`. It has the layout of the crate `cc`. The members are
/// those of LLVM's page "JSON Compilation Database Format Specification"; strings are escaped by RFC 8259, section 7:
/// a backslash before `"` and `\`, and characters below U+0020 as `\u` and four digits in lower case. Only want of
/// memory refuses; the text stays as it was then. The commands are dropped.
pub fn json_compilation_database(commands: Vec<CompileCommand>, text: &mut String) -> Mem<()>
    ensures ok { OnOk result (string_bytes text.new
        ≡ string_bytes text.old ++ database commands.items) }
    ensures err { OnErr result (string_bytes text.new ≡ string_bytes text.old) }
{
    let database = database_of(*commands.allocator(), commands.as_slice())?;
    text.push_str(database.as_str())?;
    Ok(())
}

/// Two lists of commands that have one text are one list. This is the law alone; it does nothing.
pub fn one_list_a_text()
    ensures { (xs ys : List CompileCommandSeen) → database xs ≡ database ys → xs ≡ ys }
{}
