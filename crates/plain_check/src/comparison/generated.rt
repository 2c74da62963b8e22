//! Compares the checker and the search with the plain versions, on random recordings.

use crate::comparison::agreement::{is_audit_same, is_check_same};
use crate::comparison::recordings::recording;
use crate::{plain_check, plain_steps};
use exercise_audit::{Audit, audit};
use exercise_check::{Certificate, CheckFault, NO_LINK, Step};
use exercise_model::{Cause, ExerciseLog, Form, Recording};
use siman_trials::{ENTITIES, Random};
use std::alloc::{AllocError, Global};
use std::io;
use std::io::Write;

/// Counts of the answers of the checker and the search.
#[derive(Drop)]
pub struct Answers {
    /// Number of recordings and certificates for which the plain versions answered differently, and
    /// of recordings that could not be generated.
    pub otherwise: u32,
    explained: u32,
    blocked: u32,
    yes: u32,
    /// Number of certificates refused for each cause, at the index of its number.
    causes: [u32; 14],
    /// Number of stations blocked by each cause, at the index of its number.
    ways: [u32; 14],
}

fn add_one(counts: &mut [u32], place: usize) {
    if let Some(count) = counts.get_mut(place) {
        *count = count.saturating_add(1);
    }
}

/// Whether one of these steps names an entry.
fn names(steps: &[Step], place: u32) -> bool {
    for step in steps {
        if step.place == place {
            return true;
        }
    }
    false
}

/// A certificate of all entries: the steps that the stations can take, then the remaining entries
/// by number.
fn whole(alloc: Global, log: &Recording) -> Result<Certificate, AllocError> {
    let mut steps = plain_steps(alloc, log)?;
    for place in 0..log.entry_count() {
        let place = place as u32;
        if !names(&steps, place) {
            steps.push(Step {
                place,
                link: NO_LINK,
            })?;
        }
    }
    Ok(Certificate { steps })
}

/// Changes a certificate at random, mostly so that it becomes invalid.
fn spoil(random: &mut Random, certificate: &mut Certificate) -> Result<(), AllocError> {
    let count = certificate.steps.len();
    let (place, other) = (random.below(count), random.below(count));
    let link = (random.below(count) % 65536) as u32;
    if place >= count || other >= count {
        return Ok(());
    }
    match random.below(8) {
        0 => certificate.steps.push(Step { place: link, link })?,
        1 => certificate.steps[place].link = NO_LINK,
        2 | 3 => certificate.steps[place].link = link,
        4 => certificate.steps[place].place = link.wrapping_mul(2),
        _ => certificate.steps.swap(place, other),
    }
    Ok(())
}

impl Answers {
    fn take(&mut self, same: bool) {
        if !same {
            self.otherwise = self.otherwise.saturating_add(1);
        }
    }

    /// Compares the checker's answer to a certificate with the plain one, and counts it.
    fn try_check(
        &mut self,
        alloc: Global,
        log: &Recording,
        certificate: &Certificate,
    ) -> Result<(), AllocError> {
        let plain = plain_check(log, certificate);
        let same = is_check_same(alloc, log, certificate, plain, u16::from(ENTITIES))?;
        self.take(same);
        match plain {
            Err(CheckFault::Bad { cause, .. }) => {
                add_one(&mut self.causes, usize::from(cause.number()));
            }
            _ => self.yes = self.yes.saturating_add(1),
        }
        Ok(())
    }

    /// Counts the answer of the search to a recording.
    fn count(&mut self, found: &Audit) {
        match found {
            Audit::Explained(_) => self.explained = self.explained.saturating_add(1),
            Audit::Blocked(blocks) => {
                self.blocked = self.blocked.saturating_add(1);
                for block in blocks {
                    add_one(&mut self.ways, usize::from(block.cause.number()));
                }
            }
        }
    }

    /// Compares the search's answer to a recording with the plain one, and counts it.
    fn try_audit(&mut self, alloc: Global, log: &Recording) -> Result<(), AllocError> {
        let found = audit(alloc, log)?;
        self.count(&found);
        let same = is_audit_same(alloc, log, &found, u16::from(ENTITIES))?;
        self.take(same);
        Ok(())
    }

    /// Compares the checker's answers to a certificate, before and after a random change.
    fn try_checks(
        &mut self,
        alloc: Global,
        log: &Recording,
        random: &mut Random,
        certificate: &mut Certificate,
    ) -> Result<(), AllocError> {
        self.try_check(alloc, log, certificate)?;
        spoil(random, certificate)?;
        self.try_check(alloc, log, certificate)
    }

    /// Compares the answers for a recording.
    fn try_log(
        &mut self,
        alloc: Global,
        log: &Recording,
        random: &mut Random,
    ) -> Result<(), AllocError> {
        self.try_audit(alloc, log)?;
        self.try_checks(alloc, log, random, &mut whole(alloc, log)?)
    }

    /// Compares the answers for a random recording of a form.
    fn try_one(&mut self, alloc: Global, form: Form, mut random: Random) -> Result<(), AllocError> {
        match recording(alloc, form, false, random) {
            Ok(log) => self.try_log(alloc, &log, &mut random),
            Err(_) => {
                self.take(false);
                Ok(())
            }
        }
    }

    /// Whether all answers agreed with the plain ones and each answer occurred: a yes, an explained
    /// recording, a refusal for each cause, and a block for each cause of an event. In an open
    /// recording the cause `Stranger` must not occur.
    pub fn are_good(&self, form: Form) -> bool {
        for cause in 1..14usize {
            let (is_said, is_way) = (self.causes[cause] > 0, self.ways[cause] > 0);
            let good = if form == Form::Open && cause == usize::from(Cause::Stranger.number()) {
                !is_said && !is_way
            } else {
                is_said && (is_way || cause < 5)
            };
            if !good {
                return false;
            }
        }
        self.otherwise == 0 && self.yes > 0 && self.explained > 0
    }

    /// Prints the number of each answer.
    pub fn print<W: Write>(&self, out: &mut W) -> io::Result<()> {
        let Answers {
            explained,
            blocked,
            yes,
            otherwise,
            ..
        } = self;
        writeln!(out, "explained {explained}, blocked {blocked}, yes {yes}")?;
        for cause in 1..14usize {
            let (no, way) = (self.causes[cause], self.ways[cause]);
            writeln!(out, "cause {cause}: no {no}, blocks {way}")?;
        }
        writeln!(out, "otherwise {otherwise}")
    }
}

/// Compares the answers for `count` random recordings of a form.
pub fn try_generated(alloc: Global, form: Form, count: u32) -> Result<Answers, AllocError> {
    let mut answers = Answers {
        otherwise: 0,
        explained: 0,
        blocked: 0,
        yes: 0,
        causes: [0; 14],
        ways: [0; 14],
    };
    for number in 0..count {
        let mut random = Random {
            state: u64::from(number),
        };
        let _first = random.below(1);
        answers.try_one(alloc, form, random)?;
    }
    Ok(answers)
}
