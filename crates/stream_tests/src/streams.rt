//! Tests of checked streams, over streams that may be unlawful and give small trees.
ghost use Rattle.std.specs.Prelude.{◌≡◌, ◌<◌, ◌≤◌, IsTrue, is_some};
ghost use Rattle.stream_face.specs.Meaning.{meaning};
ghost use Rattle.stream_tests.specs.Strangers.{held_in};

use crate::stranger::{End, Stranger};
use data_types::{RowFault, Typed};
use edge_io::OpenGate;
use fmt_string::{FormatFault, FormatRule};
use layout_check::count_rows;
use layout_rules::{LayoutFault, LayoutRule};
use raw_array::{Acted, RawArray};
use raw_schema::RawSchema;
use schema_check::{SchemaFault, SchemaRule};
use std::alloc::Global;
use std::process::Abort;
use std::thread::Threads;
use stream_face::{ArrayStream, NoTap, RawStream, StartFault, StreamFault, Tap};
use test_parts::{Items, array, node};
use unit_pass::{Desk, NoMemory, Pass, ROOM, SUPPLY, open_desk};

// ---- small trees

/// An array of this many items and nulls.
pub(crate) fn array_of(
    rt: &impl Abort,
    alloc: Global,
    (length, null_count): (i64, i64),
    bytes: &[Option<&[u8]>],
    children: Vec<RawArray>,
    pass: &mut Pass,
) -> RawArray {
    let items = Items {
        length,
        null_count,
        offset: 0,
    };
    array(alloc, items, bytes, children, None, pass).expect(rt, "no memory")
}

/// A structure for a table of one column of texts.
#[derive(Clone, Copy, Debug, PartialEq, Eq)]
enum Given {
    /// The texts `x` and `y`.
    Good,
    /// An offset above the next.
    Falling,
    /// A null is counted that isn't there.
    WrongNulls,
    /// The column is released.
    Gone,
    /// Two columns.
    Other,
    /// It counts a null row.
    NullRow,
    /// Two whole numbers of 32 bits, and no table.
    Numbers,
}

const RISING: [u8; 12] = [0, 0, 0, 0, 1, 0, 0, 0, 2, 0, 0, 0];

const FALLING: [u8; 12] = [0, 0, 0, 0, 2, 0, 0, 0, 1, 0, 0, 0];

fn texts(rt: &impl Abort, alloc: Global, given: Given, pass: &mut Pass) -> RawArray {
    let offsets: &[u8] = if given == Given::Falling {
        &FALLING
    } else {
        &RISING
    };
    let nulls = if given == Given::WrongNulls { 1 } else { 0 };
    array_of(
        rt,
        alloc,
        (2, nulls),
        &[None, Some(offsets), Some(b"xy")],
        Vec::new(alloc),
        pass,
    )
}

fn table(rt: &impl Abort, alloc: Global, given: Given, pass: &mut Pass) -> RawArray {
    if given == Given::Numbers {
        return array_of(
            rt,
            alloc,
            (2, 0),
            &[None, Some(&[7u8; 8])],
            Vec::new(alloc),
            pass,
        );
    }
    let mut columns = Vec::new(alloc);
    let column = match given {
        Given::Gone => RawArray::released(),
        _ => texts(rt, alloc, given, pass),
    };
    columns.push(column).expect(rt, "no memory");
    if given == Given::Other {
        columns
            .push(texts(rt, alloc, Given::Good, pass))
            .expect(rt, "no memory");
    }
    if given == Given::NullRow {
        return array_of(rt, alloc, (2, 1), &[Some(&[1u8])], columns, pass);
    }
    array_of(rt, alloc, (2, 0), &[None], columns, pass)
}

/// A schema of this format and name.
fn field(
    rt: &impl Abort,
    alloc: Global,
    format: &[u8],
    name: Option<&[u8]>,
    children: Vec<RawSchema>,
    pass: &mut Pass,
) -> RawSchema {
    node(alloc, format, name, children, None, pass).expect(rt, "no memory")
}

/// The schema of a table of a column of texts, or of a node of another format, or a released one.
fn schema(rt: &impl Abort, alloc: Global, format: Option<&[u8]>, pass: &mut Pass) -> RawSchema {
    let Some(format) = format else {
        return RawSchema::released();
    };
    let mut columns = Vec::new(alloc);
    if format == b"+s".as_slice() {
        let column = field(rt, alloc, b"u", None, Vec::new(alloc), pass);
        columns.push(column).expect(rt, "no memory");
    }
    field(rt, alloc, format, None, columns, pass)
}

// ---- streams

/// A stream that gives these tables, one after the other, and then ends so.
fn stranger(
    rt: &impl Abort,
    alloc: Global,
    format: Option<&[u8]>,
    givens: &[Given],
    shy: bool,
    end: End,
    pass: &mut Pass,
) -> Stranger
    ensures live { IsTrue (is_some result.holdings) }
    ensures few { held_in result.holdings ≤ 1000 }
{
    let schema = schema(rt, alloc, format, pass);
    let mut arrays = Vec::new(alloc);
    for given in givens.iter().rev() {
        arrays
            .push(table(rt, alloc, *given, pass))
            .expect(rt, "no memory");
    }
    let bank = pass.split(0);
    Stranger::new(rt, schema, arrays, bank, shy, end)
}

/// The stream of these chunks under a schema of this format, at this link.
fn joint(
    rt: &impl Abort,
    alloc: Global,
    format: &[u8],
    givens: &[Given],
    end: End,
    link: u32,
    pass: &mut Pass,
) -> RawStream<Stranger>
    ensures { (meaning ⟦<Stranger as ArrayStream>⟧.state result).held ≤ 1100 }
{
    let inner = stranger(rt, alloc, Some(format), givens, false, end, pass);
    assert!(rt; pass.units() >= ROOM);
    match RawStream::start(alloc, inner, link, pass) {
        Ok(stream) => {
            assert!(rt; stream.schema().cost() <= 100);
            stream
        }
        Err(_refused) => panic!(rt; "not started"),
    }
}

/// The code of the next call, and whether it gave a chunk, whose units are back then.
fn next<R: Threads + Sync + Abort, T: Tap>(
    rt: &R,
    alloc: Global,
    stream: &mut RawStream<Stranger>,
    pass: &mut Pass,
    tap: &mut T,
) -> (i32, bool)
    ensures { (meaning ⟦<Stranger as ArrayStream>⟧.state stream.new).held ≡ (meaning ⟦<Stranger as ArrayStream>⟧.state stream.old).held }
{
    assert!(rt; !stream.is_released() && pass.units() >= ROOM);
    let before = pass.units();
    let mut out = RawArray::released();
    let code = stream.next(rt, alloc, &mut out, pass, tap, &OpenGate);
    let given = !out.is_released();
    out.end(pass);
    assert!(rt; pass.units() == before);
    (code, given)
}

/// Releases the stream, once, and gives it up; then all units are back.
fn ended(rt: &impl Abort, stream: RawStream<Stranger>, desk: Desk, pass: Pass)
    requires { (meaning ⟦<Stranger as ArrayStream>⟧.state stream).held ≤ 1100 }
{
    let mut stream = stream;
    let mut pass = pass;
    assert!(rt; pass.units() >= 1100);
    let aside = pass.split(1100);
    assert!(rt; stream.release(&mut pass) == Acted::Acted);
    assert!(rt; stream.release(&mut pass) == Acted::Was);
    stream.discard();
    assert!(rt; pass.units() <= SUPPLY - 1100);
    pass.join(aside);
    assert!(rt; pass.units() == SUPPLY);
    desk.close(pass);
}

/// Keeps the number of each link and the rows of each chunk.
#[derive(Drop)]
struct Sights {
    seen: Vec<(u32, i64)>,
}

impl Tap for Sights {
    ghost use Rattle.std.specs.Prelude.{None};

    ghost seen = { λ _. None };

    fn see(
        &mut self,
        _alloc: Global,
        link: u32,
        _schema: &RawSchema,
        typed: &Typed,
        chunk: &RawArray,
    ) -> Result<(), NoMemory> {
        match self.seen.push((link, count_rows(typed, chunk))) {
            Ok(()) => Ok(()),
            Err(_failed) => Err(NoMemory),
        }
    }
}

/// A tap that has no memory.
#[derive(Drop)]
struct FullTap;

impl Tap for FullTap {
    ghost use Rattle.std.specs.Prelude.{None};

    ghost seen = { λ _. None };

    fn see(
        &mut self,
        _alloc: Global,
        _link: u32,
        _schema: &RawSchema,
        _typed: &Typed,
        _chunk: &RawArray,
    ) -> Result<(), NoMemory> {
        Err(NoMemory)
    }
}

/// What is no chunk: its rule, place and numbers, and the way to the node.
type Refusal = (Given, LayoutRule, (u64, i128, i128), &'static [u32]);

/// What is no chunk of texts.
static REFUSED: [Refusal; 5] = [
    (Given::Falling, LayoutRule::OffsetsFall, (1, 2, 1), &[0]),
    (Given::WrongNulls, LayoutRule::NullCount, (0, 1, 0), &[0]),
    (Given::Gone, LayoutRule::Released, (0, 0, 0), &[0]),
    (Given::Other, LayoutRule::ChildCount, (0, 2, 1), &[]),
    (Given::NullRow, LayoutRule::TopNulls, (0, 1, 0), &[]),
];

/// What is lawful under its schema, and no chunk, since that is no struct's.
static NO_STRUCT: Refusal = (Given::Numbers, LayoutRule::TopKind, (0, 0, 0), &[]);

/// A chunk is refused by this fault.
fn is_fault(rt: &impl Abort, fault: &LayoutFault, refusal: &Refusal) {
    let numbers = (fault.place, fault.left, fault.right);
    let found = (refusal.0, fault.rule, numbers, fault.path.way());
    assert_eq!(rt; found, *refusal);
}

/// The last call of a stream had this answer, and refused a chunk by this fault.
fn tells_refusal(
    rt: &impl Abort,
    stream: &RawStream<Stranger>,
    answer: (i32, bool),
    refusal: &Refusal,
) {
    let given = refusal.0;
    match stream.fault() {
        Some(StreamFault::Chunk(fault)) => is_fault(rt, &fault, refusal),
        _ => panic!(rt; "no refused chunk: {given:?}"),
    }
    let told = (given, answer, stream.row_fault(), stream.last_error());
    assert_eq!(rt; told, (given, (22, false), None, Some("chunk refused")));
}

/// A call that refuses a chunk by this fault.
fn refused<R: Threads + Sync + Abort, T: Tap>(
    rt: &R,
    alloc: Global,
    stream: &mut RawStream<Stranger>,
    pass: &mut Pass,
    tap: &mut T,
    refusal: &Refusal,
)
    ensures { (meaning ⟦<Stranger as ArrayStream>⟧.state stream.new).held ≡ (meaning ⟦<Stranger as ArrayStream>⟧.state stream.old).held }
{
    let answer = next(rt, alloc, stream, pass, tap);
    tells_refusal(rt, stream, answer, refusal);
}

/// A stream tells no fault and no error.
fn is_silent(stream: &RawStream<Stranger>) -> bool {
    stream.fault().is_none() && stream.last_error().is_none()
}

/// What is no chunk is refused behind a chunk, at each later call too, and isn't shown.
fn is_refused<R: Threads + Sync + Abort>(rt: &R, alloc: Global, refusal: &Refusal) {
    let (desk, mut pass) = open_desk();
    let givens = [Given::Good, refusal.0, Given::Good];
    let mut stream = joint(rt, alloc, b"+s", &givens, End::Ends, 3, &mut pass);
    let mut sights = Sights {
        seen: Vec::new(alloc),
    };
    let first = next(rt, alloc, &mut stream, &mut pass, &mut sights);
    assert!(rt;
        first == (0, true) && is_silent(&stream),
        "before {:?}",
        refusal.0
    );
    refused(rt, alloc, &mut stream, &mut pass, &mut sights, refusal);
    refused(rt, alloc, &mut stream, &mut pass, &mut sights, refusal);
    assert!(rt;
        sights.seen.as_slice() == [(3u32, 2i64)].as_slice(),
        "{:?}",
        refusal.0
    );
    ended(rt, stream, desk, pass);
}

#[test]
fn a_chunk_that_fails_the_check_is_refused(rt: HostRuntime) {
    for refusal in &REFUSED {
        is_refused(&rt, rt.alloc(), refusal);
    }
}

#[test]
fn a_chunk_under_a_schema_of_no_struct_is_refused(rt: HostRuntime) {
    let alloc = rt.alloc();
    let (desk, mut pass) = open_desk();
    let mut stream = joint(&rt, alloc, b"i", &[Given::Numbers], End::Ends, 0, &mut pass);
    let mut sights = Sights {
        seen: Vec::new(alloc),
    };
    refused(&rt, alloc, &mut stream, &mut pass, &mut sights, &NO_STRUCT);
    refused(&rt, alloc, &mut stream, &mut pass, &mut sights, &NO_STRUCT);
    assert!(rt; sights.seen.is_empty());
    ended(&rt, stream, desk, pass);
}

/// How a stream ends behind a chunk: the code, and the fault.
static ENDS: [(End, i32, Option<StreamFault>); 5] = [
    (End::Ends, 0, None),
    (End::Code(5), 5, Some(StreamFault::Code(5))),
    (End::Code(12), 12, Some(StreamFault::NoMemory)),
    (End::Code(22), 22, Some(StreamFault::Code(22))),
    (
        End::Row(RowFault::Ragged { row: 3, found: 1 }),
        22,
        Some(StreamFault::Row(RowFault::Ragged { row: 3, found: 1 })),
    ),
];

/// A call that answers as the stream ends.
fn at_end<R: Threads + Sync + Abort>(
    rt: &R,
    alloc: Global,
    stream: &mut RawStream<Stranger>,
    pass: &mut Pass,
    code: i32,
    fault: Option<StreamFault>,
)
    ensures { (meaning ⟦<Stranger as ArrayStream>⟧.state stream.new).held ≡ (meaning ⟦<Stranger as ArrayStream>⟧.state stream.old).held }
{
    let answer = next(rt, alloc, stream, pass, &mut NoTap);
    let told = (stream.fault(), stream.last_error().is_some());
    assert_eq!(rt; (answer, told), ((code, false), (fault, code != 0)));
}

/// Behind a chunk the stream ends so, at each later call too.
fn ends_so<R: Threads + Sync + Abort>(
    rt: &R,
    alloc: Global,
    end: End,
    code: i32,
    fault: Option<StreamFault>,
) {
    let (desk, mut pass) = open_desk();
    let mut stream = joint(rt, alloc, b"+s", &[Given::Good], end, 0, &mut pass);
    let first = next(rt, alloc, &mut stream, &mut pass, &mut NoTap);
    assert_eq!(rt; first, (0, true), "before {end:?}");
    at_end(rt, alloc, &mut stream, &mut pass, code, fault);
    at_end(rt, alloc, &mut stream, &mut pass, code, fault);
    ended(rt, stream, desk, pass);
}

#[test]
fn an_end_and_a_code_stay(rt: HostRuntime) {
    for (end, code, fault) in &ENDS {
        ends_so(&rt, rt.alloc(), *end, *code, *fault);
    }
}

/// A stream's format, whether it refuses its schema, and why it isn't started.
static UNSTARTED: [(Option<&[u8]>, bool, Option<SchemaRule>); 3] = [
    (
        Some(b"q"),
        false,
        Some(SchemaRule::Format(FormatFault::At {
            rule: FormatRule::Unknown,
            place: 0,
        })),
    ),
    (None, false, Some(SchemaRule::Released)),
    (Some(b"+s"), true, None),
];

#[test]
fn a_stream_without_a_good_schema_is_handed_back(rt: HostRuntime) {
    let alloc = rt.alloc();
    for (format, shy, wanted) in &UNSTARTED {
        let (desk, mut pass) = open_desk();
        let inner = stranger(
            &rt,
            alloc,
            *format,
            &[Given::Good],
            *shy,
            End::Code(5),
            &mut pass,
        );
        assert!(rt; pass.units() >= ROOM);
        match RawStream::start(alloc, inner, 0, &mut pass) {
            Ok(_stream) => panic!(rt; "started in place of {wanted:?}"),
            Err((inner, fault)) => {
                match fault {
                    StartFault::Code(code) => assert!(rt; wanted.is_none() && code == 5),
                    StartFault::Schema(SchemaFault::At { path: _, rule }) => {
                        assert_eq!(rt; Some(rule), *wanted)
                    }
                    StartFault::Schema(SchemaFault::NoMemory) => panic!(rt; "no memory"),
                }
                assert_eq!(rt; inner.get_last_error().is_some(), wanted.is_none());
                let mut inner = inner;
                let aside = pass.split(1000);
                inner.release(&mut pass);
                inner.discard();
                assert!(rt; pass.units() <= SUPPLY - 1000);
                pass.join(aside);
            }
        }
        assert!(rt; pass.units() == SUPPLY);
        desk.close(pass);
    }
}

#[test]
fn a_tap_without_memory_ends_the_stream(rt: HostRuntime) {
    let alloc = rt.alloc();
    let (desk, mut pass) = open_desk();
    let givens = [Given::Good, Given::Good];
    let mut stream = joint(&rt, alloc, b"+s", &givens, End::Ends, 0, &mut pass);
    let refused = next(&rt, alloc, &mut stream, &mut pass, &mut FullTap);
    let told = (stream.fault(), stream.last_error());
    let wanted = (Some(StreamFault::NoMemory), Some("out of memory"));
    assert_eq!(rt; (refused, told), ((12, false), wanted));
    let again = next(&rt, alloc, &mut stream, &mut pass, &mut NoTap);
    assert_eq!(rt; again, (12, false));
    ended(&rt, stream, desk, pass);
}
