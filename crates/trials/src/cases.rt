// A case to try: a rule, a size, and what is lent to be read.
ghost use Rattle.std.specs.Prelude.{◌≡◌, ◌+◌, ◌-◌, ◌^◌, ◌<◌, ◌≤◌, IfSome, IsTrue, Ok, Err, min};
ghost use Rattle.job.specs.declared.Job.{Job};
ghost use Rattle.trials.specs.Cases.{CaseOpens};

use crate::calls::{Call, Lent};
use crate::memory::Memory;
use crate::{Size, calls, counts, jobs, lines, marks, memory, plain};
use board::Refusal;
use job::Job;
use job_kind::Kind;
use rule::Rule;
use solver::Status;
use std::fmt::Write;

// More cells than any size tried has.
pub const CELLS: usize = 128;

#[derive(Clone, Copy)]
pub struct Case {
    pub rule: Rule,
    pub size: Size,
    // What the leftovers and the calls of its runs go by.
    pub seed: usize,
    // The givens, of predecessor jobs the target.
    pub givens: [u8; CELLS],
}

fn with_givens(rule: Rule, size: Size, seed: usize, givens: [u8; CELLS]) -> Case
    ensures { (result.rule ≡ rule) × (result.size ≡ size) × (result.seed ≡ seed) }
{
    Case {
        rule,
        size,
        seed,
        givens,
    }
}

impl Case {
    // The case whose givens are the digits of a number. This and `random` are two ways to come to givens, without a parameter that says which.
    pub fn of_number(rule: Rule, size: Size, seed: usize, number: usize) -> Case
        ensures { (result.rule ≡ rule) × (result.size ≡ size) × (result.seed ≡ seed) }
    {
        with_givens(rule, size, seed, marks::of_number(size, number))
    }

    // The pseudo-random case of a seed.
    pub fn random(rule: Rule, size: Size, seed: usize) -> Case
        ensures { (result.rule ≡ rule) × (result.size ≡ size) × (result.seed ≡ seed) }
    {
        with_givens(rule, size, seed, marks::random(rule, size, seed))
    }

    // What opening a job of the case answers.
    pub fn open(&self) -> Result<Job, Refusal>
        ensures { CaseOpens self.now result }
    {
        let s = self.size;
        job::open(
            s.kind,
            self.rule,
            s.w,
            s.h,
            &self.givens[..s.cells.min(CELLS)],
        )
    }

    // The place of the first middle one of three live marks in a line along an edge; under a rule without birth on 3 none counts. Of a target's
    // live cells under every rule: these are not refused.
    pub fn edge_three(&self) -> Option<usize>
        ensures { IfSome result (λ p. p < self.now.size.cells) }
    {
        if self.size.kind == Kind::Predecessor {
            return lines::first_three(self.size, &self.givens, 1);
        }
        if self.rule.births & 8 == 0 {
            return None;
        }
        lines::first_three(self.size, &self.givens, 2)
    }

    // Whether opening and working turn the case away, and working writes nothing.
    pub fn is_turned_away(&self, refusal: Refusal) -> bool
        ensures { IsTrue result → CaseOpens self.now (Err refusal) }
    {
        match self.open() {
            Ok(_) => false,
            Err(r) => {
                r == refusal && calls::is_refused(&self.call(refusal), &Memory::spoiled(self))
            }
        }
    }

    // A working call on a job of the case at unit 0 that is to be refused.
    fn call(&self, refusal: Refusal) -> Call {
        Call {
            case: *self,
            job: jobs::fresh(self.rule, self.size),
            lent: Lent::exact(self.size),
            refusal,
        }
    }

    // Whether opening takes the case, and working on it begins, or is refused by 6 where the memory has no room for its table.
    pub fn is_worked_on(&self) -> bool
        ensures { IsTrue result → (j : Job) × CaseOpens self.now (Ok j) }
    {
        let Ok(job) = self.open() else {
            return false;
        };
        let r = calls::work(self, job, Lent::exact(self.size), Memory::spoiled(self), 0);
        if memory::ENTRIES < self.size.room {
            return r.status == Err(Refusal::ShortTable);
        }
        r.status == Ok(Status::Unfinished)
    }

    // The case with marks altered so that it is turned away, and by what: of mirror boards mark n, dead or free in the place of another, which
    // makes the grid lopsided; of a target bytes of 2 or more, by n as a seed; of other givens mark n, which is no mark then.
    pub fn altered(&self, n: usize) -> (Case, Refusal)
        ensures { (result.0.rule ≡ self.now.rule) × (result.0.size ≡ self.now.size) × (result.0.seed ≡ self.now.seed) }
    {
        let s = self.size;
        let mut givens = self.givens;
        let refusal = match s.kind {
            Kind::Mirror => {
                let is_dead = plain::at(&givens, n) == 1;
                marks::put(&mut givens, n, if is_dead { 0 } else { 1 }); // no edge three comes of it
                Refusal::Lopsided(n.min(s.reflection(n)))
            }
            Kind::Predecessor => {
                marks::put_bad(&mut givens, s, n);
                Refusal::Mark(marks::first_bad(&givens, s.cells).unwrap_or(n))
            }
            _ => {
                marks::put(&mut givens, n, 3);
                Refusal::Mark(n)
            }
        };
        (Case { givens, ..*self }, refusal)
    }

    // Prints a difference with the case, and counts it.
    pub fn differs(&self, what: &str, count: &mut usize)
        ensures counted { count.new ≡ min (count.old + 1) (2 ^ 64 - 1) }
        ensures grows { count.old ≤ count.new }
    {
        counts::count(count);
        report::line("difference: ", what);
        report::line("  births ", self.rule.births);
        report::line("  survivals ", self.rule.survivals);
        let _ = write!(
            report::Output,
            "  {} by {}, givens ",
            self.size.w,
            self.size.h
        );
        for x in self.givens.iter().take(self.size.cells) {
            let _ = write!(report::Output, "{x}");
        }
        report::text("\n");
    }
}
