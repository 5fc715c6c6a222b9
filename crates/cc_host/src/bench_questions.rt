// What a host in memory does for questions.
ghost use Rattle.std.specs.Prelude.{◌≡◌, ◌≤◌, true, IfOk, OnOk, OnErr};
ghost use Rattle.cc_host.specs.Event.{found};
ghost use Rattle.cc_host.specs.Given.{is_answered, outcome_of};
ghost use Rattle.cc_host.specs.Bench.{has_file, noted, asked, failed_probe};

use crate::{BenchHost, Boxed, Event, HostCall, Outcome, ProbeFiles, Question, Why, exists_of};
use cc_text::Mem;

impl BenchHost {
    // Adds the event of an answer that a probe gave, and counts the call.
    fn note_answer(&mut self, q: &Question, files: &ProbeFiles, answer: &Outcome) -> Mem<()>
        ensures ok { OnOk result (self.new ≡ asked q.now files.now answer.now self.old) }
        ensures err { OnErr result (self.new ≡ self.old) }
    {
        let question = Boxed::new(self.alloc, q.try_clone()?)?;
        let files = Boxed::new(self.alloc, Some(files.try_clone()?))?;
        let outcome = Boxed::new(self.alloc, answer.try_clone()?)?;
        let event = Event::Answered {
            question,
            files,
            outcome,
        };
        self.add_call(HostCall::Probe, event)
    }

    // Asks a question whose probe is not to fail.
    pub(crate) fn answer_probe(&mut self, q: &Question, files: &ProbeFiles) -> Mem<Outcome>
        ensures is { IfOk result (λ o. o ≡ outcome_of self.old.given q.now) }
        ensures answered { IfOk result (λ o. is_answered o ≡ true) }
        ensures ok { IfOk result (λ o. self.new ≡ asked q.now files.now o self.old) }
        ensures err { OnErr result (self.new ≡ self.old) }
    {
        let answer = self.given.outcome_of(q)?;
        self.note_answer(q, files, &answer)?;
        Ok(answer)
    }

    // Asks a question whose probe is to fail.
    pub(crate) fn fail_probe(&mut self, q: &Question, files: &ProbeFiles) -> Mem<()>
        ensures ok { OnOk result (self.new ≡ failed_probe q.now files.now self.old) }
        ensures err { OnErr result (self.new ≡ self.old) }
        ensures later { self.old.faults ≤ self.new.faults }
    {
        let question = Boxed::new(self.alloc, q.try_clone()?)?;
        let files = Boxed::new(self.alloc, Some(files.try_clone()?))?;
        let outcome = Boxed::new(self.alloc, Outcome::Unanswered)?;
        self.journal.reserve(2)?;
        let event = Event::Answered {
            question,
            files,
            outcome,
        };
        self.journal.fault(HostCall::Probe, Why::Other);
        self.journal.note(event);
        self.made.count(HostCall::Probe);
        Ok(())
    }

    // Answers whether the path has a file.
    pub(crate) fn look_for(&mut self, path: &str) -> Mem<bool>
        ensures is { IfOk result (λ b. b ≡ has_file path.now self.old) }
        ensures ok { OnOk result (self.new ≡ noted (found path.now result) self.old) }
        ensures err { OnErr result (self.new ≡ self.old) }
    {
        let there = self.has_file(path);
        let event = Event::Answered {
            question: Boxed::new(self.alloc, exists_of(self.alloc, path)?)?,
            files: Boxed::new(self.alloc, None)?,
            outcome: Boxed::new(self.alloc, Outcome::Exists(there))?,
        };
        self.add(event)?;
        Ok(there)
    }
}
