// Probe files of random names.
ghost use Rattle.std.specs.Prelude.{◌≡◌, ◌≤◌, ◌++◌, ◌∷◌, [], IfOk, IfSome};
ghost use Rattle.cc_host.specs.Probe.{IsOpen};
ghost use Rattle.cc_host.specs.declared.event.Event.TheVariants.{Dropped};
ghost use Rattle.cc_tool.specs.Files.{probe_path as named};
ghost use Rattle.cc_tool.specs.Tempfile.{Attempted, Tried};

use cc_host::{Created, Host, HostError, World};
use cc_text::{Mem, Text, join};
use std::alloc::Global;
use std::marker::Model;

/// A file that was made for a question, and is to be dropped on its host. It is seen as its path.
#[derive(Drop, Debug)]
pub struct NamedTempfile {
    path: Text,
}

impl Model for NamedTempfile {
    ghost use Rattle.std.specs.Prelude.{List, ℕ};

    ghost Value = { List ℕ };

    ghost view = { λ f. f.path };
}

// The path of the file of a word.
fn probe_path(alloc: Global, dir: &str, word: u64, suffix: &str) -> Mem<Text>
    ensures { IfOk result (λ path. path ≡ named dir.now word suffix.now) }
{
    let name = format!(in alloc; "{word}{suffix}")?;
    join(alloc, dir, name.as_str())
}

// Tries one name.
fn attempt<W: World, H: Host<W>>(
    alloc: Global,
    host: &mut H,
    dir: &str,
    suffix: &str,
    contents: &[u8],
) -> Result<Option<Text>, HostError>
    ensures tried { Attempted dir.now suffix.now contents.now (H.log host.old) (H.log host.new)
        result }
    ensures patient { H.patience host.new ≡ H.patience host.old }
{
    let word = host.random()?;
    let path = probe_path(alloc, dir, word, suffix)?;
    match host.create_probe(path.as_str(), contents)? {
        Created::New => Ok(Some(path)),
        Created::Exists => Ok(None),
    }
}

impl NamedTempfile {
    /// Makes a file of these bytes in a folder, whose name is a random word in decimal and the suffix. It tries ten names at most, and
    /// answers none where files of all ten stand. No file that stands is touched. The caller drops it. Refused by a fault of the host
    /// or for memory, no file was made; the words that were drawn stand in the log.
    pub fn create<W: World, H: Host<W>>(
        alloc: Global,
        host: &mut H,
        dir: &str,
        suffix: &str,
        contents: &[u8],
    ) -> Result<Option<NamedTempfile>, HostError>
        ensures tried { Tried dir.now suffix.now contents.now (H.log host.old) (H.log host.new)
            result }
        ensures open { IfOk result (λ file. IfSome file (λ path. IsOpen path (H.log host.new))) }
        ensures patient { H.patience host.new ≡ H.patience host.old }
    {
        // (no probe file was dropped more often than made: a law of the log that is lent)
        let _tidy = host.log();
        for tries in 0..10usize {
            let _ = tries;
            match attempt(alloc, host, dir, suffix, contents)? {
                Some(path) => return Ok(Some(NamedTempfile { path })),
                None => {}
            }
        }
        Ok(None)
    }

    /// The path of the file: the folder, joined with the name.
    pub fn path(&self) -> &str
        ensures { result.now ≡ self.now }
    {
        self.path.as_str()
    }

    // The path alone.
    pub(crate) fn into_path(self) -> Text
        ensures { result ≡ self }
    {
        self.path
    }

    /// Drops the file, which must be one that this host made and hasn't dropped. It takes no memory and refuses nothing: what can't be
    /// removed stays on the disk.
    pub fn drop_on<W: World, H: Host<W>>(self, host: &mut H)
        requires { IsOpen self (H.log host.old) }
        ensures adds { H.log host.new ≡ H.log host.old ++ Dropped self ∷ [] }
        ensures later { H.faults host.old ≤ H.faults host.new }
        ensures patient { H.patience host.new ≡ H.patience host.old }
    {
        host.drop_probe(self.path.as_str());
    }
}
