//! The worked runs of the example procedures.
use super::*;
use crate::tests::{
    DELETE, DEPOSIT, GET, Given, MOVE, NEW, SET, SWAP, arguments, examples, holds, table,
};
use Given::{Number, Text};
use std::alloc::Global;
use std::process::Abort;
use std::test::Fail;

/// A run of one of the example procedures: its number, the arguments, the table before, and the
/// outcome, replies and table that it leaves.
#[derive(Clone, Copy)]
struct Row<'a> {
    procedure: usize,
    args: &'a [Given<'a>],
    before: &'a [(u8, u64)],
    outcome: u8,
    replies: &'a [Option<u64>],
    after: &'a [(u8, u64)],
}

fn finished(
    alloc: Global,
    catalog: &Catalog<Global>,
    row: &Row<'_>,
) -> Result<Finished<Global>, Fail> {
    let procedure = catalog.procedure(row.procedure).ok_or("no procedure")?;
    let args = arguments(alloc, row.args)?;
    let before = table(alloc, row.before)?;
    Ok(run_whole(alloc, procedure, args, before)?)
}

/// Whether these are the replies, as numbers.
fn are(replies: &[Option<Value<Global>>], numbers: &[Option<u64>]) -> bool {
    replies.len() == numbers.len()
        && replies.iter().zip(numbers).all(|(reply, number)| {
            let found = reply.as_ref().and_then(|value| value.as_number());
            found == *number && reply.is_some() == number.is_some()
        })
}

/// The outcome of a row's call, and whether its replies and its table are the row's.
fn run_of(
    alloc: Global,
    catalog: &Catalog<Global>,
    row: &Row<'_>,
) -> Result<(u8, bool, bool), Fail> {
    let done = finished(alloc, catalog, row)?;
    let replies = are(done.replies.as_slice(), row.replies);
    Ok((done.outcome, replies, holds(&done.table, row.after)))
}

/// Each outcome of the worked procedures.
static ROWS: [Row<'static>; 18] = [
    Row {
        procedure: GET,
        args: &[Text(b"a")],
        before: &[(b'a', 5)],
        outcome: 0,
        replies: &[Some(5)],
        after: &[(b'a', 5)],
    },
    Row {
        procedure: GET,
        args: &[Text(b"a")],
        before: &[],
        outcome: 0,
        replies: &[None],
        after: &[],
    },
    Row {
        procedure: NEW,
        args: &[Text(b"a"), Number(5)],
        before: &[],
        outcome: 0,
        replies: &[],
        after: &[(b'a', 5)],
    },
    Row {
        procedure: NEW,
        args: &[Text(b"a"), Number(6)],
        before: &[(b'a', 5)],
        outcome: 1,
        replies: &[],
        after: &[(b'a', 5)],
    },
    Row {
        procedure: DEPOSIT,
        args: &[Text(b"z"), Number(1)],
        before: &[],
        outcome: 16,
        replies: &[None],
        after: &[],
    },
    Row {
        procedure: DEPOSIT,
        args: &[Text(b"a"), Number(1)],
        before: &[(b'a', 5)],
        outcome: 0,
        replies: &[Some(5)],
        after: &[(b'a', 6)],
    },
    Row {
        procedure: DEPOSIT,
        args: &[Text(b"a"), Number(u64::MAX)],
        before: &[(b'a', 1)],
        outcome: 4,
        replies: &[Some(1)],
        after: &[(b'a', 1)],
    },
    Row {
        procedure: DEPOSIT,
        args: &[Text(b"a"), Text(b"1")],
        before: &[(b'a', 1)],
        outcome: 3,
        replies: &[Some(1)],
        after: &[(b'a', 1)],
    },
    Row {
        procedure: MOVE,
        args: &[Text(b"a"), Text(b"b"), Number(9)],
        before: &[(b'a', 5), (b'b', 0)],
        outcome: 4,
        replies: &[Some(5), Some(0)],
        after: &[(b'a', 5), (b'b', 0)],
    },
    Row {
        procedure: MOVE,
        args: &[Text(b"a"), Text(b"b"), Number(2)],
        before: &[(b'a', 5), (b'b', 0)],
        outcome: 0,
        replies: &[Some(5), Some(0)],
        after: &[(b'a', 3), (b'b', 2)],
    },
    Row {
        procedure: MOVE,
        args: &[Text(b"a"), Text(b"a"), Number(2)],
        before: &[(b'a', 5)],
        outcome: 0,
        replies: &[Some(5), Some(5)],
        after: &[(b'a', 7)],
    },
    Row {
        procedure: SET,
        args: &[Text(b"b"), Number(1)],
        before: &[(b'c', 3)],
        outcome: 0,
        replies: &[],
        after: &[(b'b', 1), (b'c', 3)],
    },
    Row {
        procedure: SET,
        args: &[Text(b""), Number(1)],
        before: &[],
        outcome: 5,
        replies: &[],
        after: &[],
    },
    Row {
        procedure: SET,
        args: &[Text(&[7; 33]), Number(1)],
        before: &[],
        outcome: 5,
        replies: &[],
        after: &[],
    },
    Row {
        procedure: SET,
        args: &[Text(b"a")],
        before: &[],
        outcome: 6,
        replies: &[],
        after: &[],
    },
    Row {
        procedure: DELETE,
        args: &[Text(b"a")],
        before: &[(b'a', 1), (b'b', 2)],
        outcome: 0,
        replies: &[],
        after: &[(b'b', 2)],
    },
    Row {
        procedure: DELETE,
        args: &[Text(b"a")],
        before: &[],
        outcome: 2,
        replies: &[],
        after: &[],
    },
    Row {
        procedure: SWAP,
        args: &[Text(b"a"), Number(2)],
        before: &[(b'a', 1)],
        outcome: 0,
        replies: &[Some(1)],
        after: &[(b'a', 2)],
    },
];

/// Compares what each row's call leaves.
fn check_rows(rt: &impl Abort, alloc: Global, catalog: &Catalog<Global>) -> Result<(), Fail> {
    for (place, row) in ROWS.iter().enumerate() {
        let found = run_of(alloc, catalog, row)?;
        assert_eq!(rt; (place, found), (place, (row.outcome, true, true)));
    }
    Ok(())
}

#[test]
fn worked_runs(rt: HostRuntime) -> Result<(), Fail> {
    let catalog = examples(rt.alloc())?;
    check_rows(&rt, rt.alloc(), &catalog)
}
