//! A file for `live` with a hart that never serves, whose lines are not always the same.
use crate::asserting::assert_of;
use crate::ends::{Job, Pieces, end_of};
use std::alloc::{AllocError, Global};
use std::test::Fail;

/// A file that grows by a step of the setup at a time, and the lines for these.
#[derive(Drop)]
struct Setup {
    file: String,
    lines: String,
    steps: u32,
}

impl Setup {
    fn step(&mut self, step: &str, answer: &str) -> Result<(), AllocError> {
        self.steps = self.steps.saturating_add(1);
        let number = self.steps;
        write!(self.file, "'{step}', ")?;
        writeln!(self.lines, "setup {number} {answer}")
    }
}

/// Hart 0 asks hart 1 for more than its mailbox takes, and then looks and waits in vain.
fn asked_in_vain(alloc: Global, mode: &str) -> Result<Setup, AllocError> {
    let mut setup = Setup {
        file: format!(in alloc; "harts = 2\nturns = 1\nmode = '{mode}'\nsetup = [")?,
        lines: String::new(alloc),
        steps: 0,
    };
    for ticket in 0..5 {
        let opened = format!(in alloc; "opened {ticket}")?;
        setup.step("0 flush all 0,1", opened.as_str())?;
    }
    for ticket in 0..5 {
        let post = format!(in alloc; "0 post {ticket} 1")?;
        setup.step(
            post.as_str(),
            if ticket < 4 { "ok" } else { "refused Full" },
        )?;
    }
    for _ in 0..1_000 {
        setup.step("0 collect 0", "waiting 0,1")?;
    }
    setup.step("0 finish 0", "refused NotDone")?;
    setup.step("0 wait 0", "timeout")?;
    Ok(setup)
}

/// Once the setup is over, hart 1 serves in one turn, if hart 0 has not ended by then.
#[test]
fn hart_that_never_serves(rt: HostRuntime) -> Result<(), Fail> {
    let alloc = rt.alloc();
    let pair = "pair 1 0 accepted 0 taken 0 waiting 0\n";
    for mode in ["sv39", "sv48"] {
        let Setup { file, lines, .. } = asked_in_vain(alloc, mode)?;
        let text = format!(in alloc; "{file}]\n")?;
        let none = format!(in alloc; "{lines}pair 0 1 accepted 4 taken 0 waiting 4\n{pair}")?;
        let one = format!(in alloc; "{lines}pair 0 1 accepted 4 taken 1 waiting 3\n{pair}")?;
        let ended = end_of(&rt, alloc, Job::Live, &mut Pieces::whole(text.as_bytes()));
        let is_either = ended.is(0, none.as_str(), "") || ended.is(0, one.as_str(), "");
        assert_of(&rt, mode, is_either);
    }
    Ok(())
}
