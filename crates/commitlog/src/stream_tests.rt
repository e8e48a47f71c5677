//! Tests of logs that go to a writer and come from a reader: devices that fail at a call, and that take
//! or give few bytes a call.
use super::*;
use crate::log_bytes_tests::{one_call, two_calls};
use phase::Phase;
use procedure::Sequence;
use std::alloc::Global;
use std::io::{Error, ErrorKind, Read, Result as IoResult, Write};
use std::test::Fail;

const HEADER: LogHeader = LogHeader {
    catalog: [0x11; 32],
    opening: [0x22; 32],
};

/// Keeps what is written, at most `most` bytes a call, and fails once its calls are used up.
#[derive(Debug, Drop)]
struct Sink {
    kept: Vec<u8, Global>,
    most: usize,
    calls: usize,
}

impl Write for Sink {
    fn write(&mut self, buf: &[u8]) -> IoResult<usize> {
        if self.calls == 0 {
            return Err(Error::from(ErrorKind::Interrupted));
        }
        self.calls -= 1;
        let taken = buf.len().min(self.most);
        self.kept.extend_from_slice(&buf[..taken])?;
        Ok(taken)
    }

    fn flush(&mut self) -> IoResult<()> {
        Ok(())
    }
}

/// Gives its bytes, at most `most` a call, and fails once its calls are used up.
#[derive(Debug, Drop)]
struct Source {
    left: Vec<u8, Global>,
    most: usize,
    calls: usize,
}

impl Read for Source {
    fn read(&mut self, buf: &mut [u8]) -> IoResult<usize> {
        if self.calls == 0 {
            return Err(Error::from(ErrorKind::Interrupted));
        }
        self.calls -= 1;
        let given = self.left.len().min(self.most).min(buf.len());
        buf[..given].copy_from_slice(&self.left[..given]);
        self.left = Vec::from_slice(self.left.allocator().clone()?, &self.left[given..])?;
        Ok(given)
    }
}

fn three_tokens(alloc: Global) -> Result<Vec<Record<Global>>, Fail> {
    let mut records = Vec::new(alloc);
    for phase in [Phase::Prepare, Phase::Resolve, Phase::Capture] {
        records.push(Record::token(phase, 1))?;
    }
    Ok(records)
}

fn encoded(alloc: Global) -> Result<Sequence<u8, Global>, Fail> {
    let records = three_tokens(alloc)?;
    if records.len() > limits::LOG_RECORDS {
        return Err("too many".into());
    }
    Ok(encode(alloc, &HEADER, &records)?)
}

/// What a writer that takes `calls` calls keeps, and what is returned.
fn sent(
    alloc: Global,
    most: usize,
    calls: usize,
) -> Result<(Vec<u8, Global>, Option<WriteError>), Fail> {
    let records = three_tokens(alloc)?;
    if records.len() > limits::LOG_RECORDS {
        return Err("too many".into());
    }
    let mut sink = Sink {
        kept: Vec::new(alloc),
        most,
        calls,
    };
    let refused = encode_to(alloc, &mut sink, &HEADER, &records).err();
    Ok((sink.kept, refused))
}

/// A log of 72 bytes and three records of 46.
#[test]
fn written_in_four_calls(rt: HostRuntime) -> Result<(), Fail> {
    let alloc = rt.alloc();
    let whole = encoded(alloc)?;
    for (calls, length) in [(0, 0), (1, 72), (2, 118), (3, 164)] {
        let (kept, refused) = sent(alloc, usize::MAX, calls)?;
        assert_eq!(rt; refused, Some(WriteError::WriteFault));
        assert_eq!(rt; kept.len(), length);
        assert!(rt; whole.as_slice().starts_with(&kept));
    }
    let (kept, refused) = sent(alloc, usize::MAX, 4)?;
    assert_eq!(rt; refused, None);
    assert_eq!(rt; kept.as_slice(), whole.as_slice());
    Ok(())
}

#[test]
fn written_a_byte_a_call(rt: HostRuntime) -> Result<(), Fail> {
    let alloc = rt.alloc();
    let whole = encoded(alloc)?;
    for calls in 0..210 {
        let (kept, refused) = sent(alloc, 1, calls)?;
        assert_eq!(rt; refused, Some(WriteError::WriteFault));
        assert_eq!(rt; kept.len(), calls);
        assert!(rt; whole.as_slice().starts_with(&kept));
    }
    let (kept, refused) = sent(alloc, 1, 210)?;
    assert_eq!(rt; refused, None);
    assert_eq!(rt; kept.as_slice(), whole.as_slice());
    Ok(())
}

/// What a log that is written record by record leaves at a writer that takes `calls` calls, and how many
/// records it took.
fn sent_one_by_one(
    alloc: Global,
    most: usize,
    calls: usize,
    records: &[Record<Global>],
) -> (Vec<u8, Global>, usize) {
    let sink = Sink {
        kept: Vec::new(alloc),
        most,
        calls,
    };
    let mut log = match LogWriter::new(sink, &HEADER) {
        Ok(log) => log,
        Err(sink) => return (sink.kept, 0),
    };
    let taken = records
        .iter()
        .filter(|record| log.append(record).is_ok())
        .count();
    (log.into_writer().kept, taken)
}

/// Three calls for the header and four for a token. Where one fails nothing more goes out.
#[test]
fn written_one_by_one(rt: HostRuntime) -> Result<(), Fail> {
    let alloc = rt.alloc();
    let whole = encoded(alloc)?;
    let records = three_tokens(alloc)?;
    for (calls, length, count) in [
        (0, 0, 0),
        (2, 40, 0),
        (3, 72, 0),
        (4, 76, 0),
        (6, 86, 0),
        (7, 118, 1),
        (14, 178, 2),
        (15, 210, 3),
    ] {
        let (kept, taken) = sent_one_by_one(alloc, usize::MAX, calls, &records);
        assert_eq!(rt; (kept.len(), taken), (length, count));
        assert!(rt; whole.as_slice().starts_with(&kept));
    }
    for calls in 0..211 {
        let (kept, _taken) = sent_one_by_one(alloc, 1, calls, &records);
        assert_eq!(rt; kept.len(), calls.min(210));
        assert!(rt; whole.as_slice().starts_with(&kept));
    }
    Ok(())
}

#[test]
fn write_of_no_byte(rt: HostRuntime) -> Result<(), Fail> {
    let (kept, refused) = sent(rt.alloc(), 0, 1)?;
    assert_eq!(rt; refused, Some(WriteError::WriteFault));
    assert!(rt; kept.is_empty());
    Ok(())
}

/// How many records are read of a log that comes in pieces, from a reader that takes `calls` calls.
fn received(alloc: Global, most: usize, calls: usize) -> Result<Result<usize, ReadError>, Fail> {
    let whole = encoded(alloc)?;
    let mut source = Source {
        left: Vec::from_slice(alloc, whole.as_slice())?,
        most,
        calls,
    };
    Ok(match read_log_from(alloc, &mut source) {
        Ok(log) => Ok(log.records.len()),
        Err(refused) => Err(refused),
    })
}

#[test]
fn read_in_pieces(rt: HostRuntime) -> Result<(), Fail> {
    let alloc = rt.alloc();
    for (most, calls) in [(210, 2), (100, 4), (1, 211)] {
        for fewer in 0..calls {
            let refused = received(alloc, most, fewer)?;
            assert_eq!(rt; refused, Err(ReadError::ReadFault));
        }
        assert_eq!(rt; received(alloc, most, calls)?, Ok(3));
    }
    Ok(())
}

#[test]
fn nothing_to_read(rt: HostRuntime) {
    let mut source = Source {
        left: Vec::new(rt.alloc()),
        most: 1,
        calls: 1,
    };
    let refused = read_log_from(rt.alloc(), &mut source).err();
    assert_eq!(rt; refused, Some(ReadError::Log(LogError::NotALog)));
}

/// Tokens of all phases, calls with and without replies, and one with long values.
fn each_kind(alloc: Global) -> Result<Vec<Record<Global>>, Fail> {
    let mut records = two_calls(alloc)?;
    for phase in [Phase::Rest, Phase::Prepare, Phase::Resolve, Phase::Capture] {
        records.push(Record::token(phase, u64::MAX))?;
    }
    records.push(Record::token(Phase::Complete, 0))?;
    for record in one_call(alloc, (8, 300), (64, 300))? {
        records.push(record)?;
    }
    Ok(records)
}

/// The records of a log that is written to a writer and read from a reader, each with few bytes a call.
fn again(alloc: Global, records: &[Record<Global>]) -> Result<StoredLog<Global>, Fail> {
    if records.len() > limits::LOG_RECORDS {
        return Err("too many".into());
    }
    let mut sink = Sink {
        kept: Vec::new(alloc),
        most: 100,
        calls: 1_000,
    };
    encode_to(alloc, &mut sink, &HEADER, records)?;
    let mut source = Source {
        left: sink.kept,
        most: 1_000,
        calls: 1_000,
    };
    Ok(read_log_from(alloc, &mut source)?)
}

/// Calls with long values, of which each field goes out by itself.
#[test]
fn each_kind_one_by_one(rt: HostRuntime) -> Result<(), Fail> {
    let alloc = rt.alloc();
    let records = each_kind(alloc)?;
    if records.len() > limits::LOG_RECORDS {
        return Err("too many".into());
    }
    let whole = encode(alloc, &HEADER, &records)?;
    let (kept, taken) = sent_one_by_one(alloc, 100, 1_000, &records);
    assert_eq!(rt; taken, 8);
    assert_eq!(rt; kept.as_slice(), whole.as_slice());
    Ok(())
}

/// Each record on a line.
fn lines_of(alloc: Global, records: &[Record<Global>]) -> Result<String<Global>, Fail> {
    let mut text = String::new(alloc);
    for record in records {
        text.push_str(format!(in alloc; "{record:?}\n")?.as_str())?;
    }
    Ok(text)
}

#[test]
fn written_and_read_again(rt: HostRuntime) -> Result<(), Fail> {
    let records = each_kind(rt.alloc())?;
    let log = again(rt.alloc(), records.as_slice())?;
    assert_eq!(rt;
        (log.version, log.header, log.ending, log.records.len()),
        (Version::Two, HEADER, Ending::Clean, 8)
    );
    let found = lines_of(rt.alloc(), log.records.as_slice())?;
    let wanted = lines_of(rt.alloc(), records.as_slice())?;
    assert_eq!(rt; found.as_str(), wanted.as_str());
    Ok(())
}
