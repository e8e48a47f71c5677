//! Tests of runs with a keeper: what it is told of is the log and the images, in order; where it takes no more, each
//! session ends.
ghost use Rattle.std.specs.Prelude.{◌≡◌};
ghost use Rattle.view.specs.Views.{name_of};

use crate::gates::Open;
use crate::keepers::Keeper;
use crate::run_tests::{Begun, TWO_SESSIONS, begun_with};
use crate::runs::{NotRun, Report, run_kept};
use crate::shares::Share;
use commitlog::{Entry, Record};
use image::{Image, Kind};
use std::alloc::Global;
use std::marker::Brand;
use std::sync::Wait;
use std::test::Fail;
use std::thread::Threads;
use steps::Core;
use view::{Naming, Opened, Publisher, open_view};

/// How many records and images there are, and a sum of both in which their order shows.
#[derive(Clone, Copy, Debug, PartialEq, Eq)]
struct Sum {
    records: u64,
    images: u64,
    order: u64,
}

impl Sum {
    fn new() -> Self {
        Sum {
            records: 0,
            images: 0,
            order: 0,
        }
    }

    fn add_record(&mut self, found: &Record<Global>) {
        let own = match found.entry() {
            Entry::Call { call, .. } => call.number.wrapping_add(u64::from(call.session) << 8),
            Entry::Token { number, .. } => number.wrapping_add(1 << 16),
        };
        self.records = self.records.wrapping_add(1);
        self.order = self.order.wrapping_mul(31).wrapping_add(own);
    }

    fn add_image(&mut self, image: &Image<Global>) {
        self.images = self.images.wrapping_mul(31).wrapping_add(image.number());
    }
}

/// A keeper that sums up what it is told of, and takes no more after so many records.
#[derive(Drop)]
struct Summing {
    sum: Sum,
    most: u64,
}

impl Keeper<Global> for Summing {
    ghost use Rattle.std.specs.Prelude.{nat_lt};

    ghost Has = { λ _ _ _ _. Unit {0} };

    ghost is_going = { λ k. nat_lt k.sum.records k.most };

    fn keep_records(&mut self, records: &[Record<Global>]) {
        for found in records {
            self.sum.add_record(found);
        }
    }

    fn keep_image(&mut self, image: &Image<Global>) {
        self.sum.add_image(image);
    }

    fn goes_on(&self) -> bool {
        self.sum.records < self.most
    }
}

/// The sum of a log and images.
fn sum_of(core: &Core<Global>, images: &[Image<Global>]) -> Sum {
    let mut sum = Sum::new();
    for found in core.records() {
        sum.add_record(found);
    }
    for image in images {
        sum.add_image(image);
    }
    sum
}

/// What a run came to: whether the keeper was told of just what the core has, how many images there are, and how
/// many answers each of two sessions was given.
type Outcome = (bool, usize, [usize; 2]);

/// How many answers the first and the last session were given.
fn answers_in(shares: &[Share<(), Global>]) -> Option<[usize; 2]> {
    let first = shares.first()?.answers.len();
    let last = shares.last()?.answers.len();
    Some([first, last])
}

fn outcome_of<J: Naming, R: Wait>(
    report: Report<J, &R, Global>,
    keeper: Summing,
) -> Option<Outcome> {
    let Report {
        core,
        shares,
        images,
        checkpoints: _,
        publisher,
        last,
    } = report;
    let is_told = sum_of(&core, images.as_slice()) == keeper.sum;
    let count = images.len();
    let answers = answers_in(shares.as_slice());
    drop(core);
    drop(shares);
    drop(images);
    drop(publisher);
    drop(last);
    drop(keeper);
    Some((is_told, count, answers?))
}

fn run<J: Naming + Send + Sync, R: Threads + Wait + Sync>(
    rt: &R,
    alloc: Global,
    begun: Begun,
    publisher: Publisher<J, &R, Global>,
    most: u64,
) -> Option<Outcome> {
    let Begun { core, scripts } = begun;
    let kinds = [Kind::Full, Kind::Partial];
    let sum = Sum::new();
    let keeper = Summing { sum, most };
    match run_kept(rt, alloc, core, scripts, &kinds, publisher, &Open, keeper) {
        Ok((report, keeper)) => outcome_of(report, keeper),
        Err((not_run, keeper)) => {
            let NotRun { core, publisher } = not_run;
            drop(core);
            drop(publisher);
            drop(keeper);
            None
        }
    }
}

fn run_in_view<J: Naming + Send + Sync, R: Threads + Wait + Sync>(
    rt: &R,
    alloc: Global,
    opened_view: Opened<Global>,
    begun: Begun,
    most: u64,
) -> Result<Option<Outcome>, Fail>
    requires { name_of opened_view ≡ J.book }
{
    match open_view::<J, &R, Global>(alloc, rt, opened_view) {
        Ok((publisher, looker, seen)) => {
            let outcome = run(rt, alloc, begun, publisher, most);
            drop(looker);
            drop(seen);
            Ok(outcome)
        }
        Err(refused) => {
            drop(begun);
            Err(refused.into())
        }
    }
}

/// A keeper that takes all, and one that takes no more once it was told of a record: then each session ends after
/// its first answer.
#[test]
fn runs_with_a_keeper(rt: HostRuntime) -> Result<(), Fail> {
    for (most, answers) in [(1_000, [3, 3]), (0, [1, 1])] {
        let begun = begun_with(rt.alloc(), &TWO_SESSIONS)?;
        let ran = run_in_view::<Brand, _>(&rt, rt.alloc(), Opened::new(), begun, most)?;
        assert_eq!(rt; ran, Some((true, 2, answers)));
    }
    Ok(())
}
