// Whether a path is there, by the answers of a call so far.
ghost use Rattle.std.specs.Prelude.{◌≡◌, IfOk, IfErr};
ghost use Rattle.cc_host.specs.Call.{part};
ghost use Rattle.cc_host.specs.Question.{Settles, exists_question, is_yes as yes};
ghost use Rattle.cc_build.specs.Build.{probes};
ghost use Rattle.cc_build.specs.Error.{no_memory};
ghost use Rattle.cc_build.specs.Kept.{Asking};
ghost use Rattle.cc_build.specs.Questions.{AsksOnly};

use crate::{Build, Error};
use cc_host::{Host, World, exists_of, is_yes};
use cc_plan::probe_folder;
use cc_tool::{Answers, ask};
use std::sync::Wait;

impl<W: World> Build<W> {
    /// Whether there is something at a path, by the answers of a call so far: the host is asked about each path once in
    /// it. Between `plan_run` and `run_plan` a caller finds out by it which objects are there. Refused only for memory.
    /// The build is as before.
    #[tactic(auto, using(cc_host::proofs::Parts::since_append))]
    pub fn path_exists<H: Host<W>>(
        &self,
        rt: &impl Wait,
        host: &mut H,
        path: &str,
        answers: &mut Answers,
    ) -> Result<bool, Error>
        ensures asks { Asking W.steady W.answer (probes self.now)
            (λ look q. q ≡ exists_question path.now) H.log H.patience
            host.old host.new answers.old answers.new }
        ensures quiet { AsksOnly (part H.log host.old host.new) }
        ensures told { IfOk result (λ there. Settles answers.new
            (λ look. yes (look (exists_question path.now))) there) }
        ensures refused { IfErr result (λ e. e ≡ no_memory) }
    {
        let (alloc, caches) = (self.alloc, &self.caches);
        let dir = probe_folder(&self.config, &self.env);
        let question = exists_of(alloc, path)?;
        let verdict = ask(rt, alloc, host, caches, answers, &question, dir)?;
        Ok(is_yes(&verdict))
    }
}
