use crate::{Status, steady};
use std::alloc::{AllocError, Global};
use std::test::Fail;
use wg_io::{MemFiles, MemSink, NamedFiles};

const HEAD_TAIL: &str =
    "struct R { uint n; };\n[Shader(\"node\")] [NodeLaunch(\"thread\")]\nvoid Head(ThreadNodeInputRecord<R> i, [MaxRecords(1)] NodeOutput<R> Tail) { ThreadNodeOutputRecords<R> o = Tail.GetThreadNodeOutputRecords(1); o.Get().n = i.Get().n + 3; o.OutputComplete(); }\n[Shader(\"node\")] [NodeLaunch(\"thread\")]\nvoid Tail(ThreadNodeInputRecord<R> i) { }\n";

const TWO: &str = "script 1\nentry Head 4294967295\nentry Head 0\n";

const REPORT: [&str; 5] = [
    "0 Head[0]@0 g 0 0 0 in 0 out 2\n",
    "1 Tail[0]@0 g 0 0 0 in 2 out\n",
    "2 Head[0]@0 g 0 0 0 in 1 out 3\n",
    "3 Tail[0]@0 g 0 0 0 in 3 out\n",
    "done launches 4 records 4 denied 0 peak 4 of 4\n",
];

/// What a run prints to a sink that counts its writes, of which the one of this number from 0 fails.
fn run(alloc: Global, failing: u64) -> Result<(Status, MemSink), AllocError> {
    let mut named = NamedFiles::new(alloc);
    for (name, text) in [("g", HEAD_TAIL), ("s", TWO)] {
        named.add(
            String::from_str(alloc, name)?,
            text.as_bytes().to_vec(alloc)?,
        )?;
    }
    let mut words = Vec::new(alloc);
    for word in ["run", "g", "s"] {
        words.push(String::from_str(alloc, word)?)?;
    }
    let mut files = MemFiles::new(named, Vec::new(alloc));
    let mut out = MemSink::new(alloc, vec![in alloc; failing]?);
    let status = steady(alloc, words.as_slice(), &mut files, &mut out);
    Ok((status, out))
}

#[test]
fn each_line_is_one_write_and_the_first_that_fails_is_the_last(
    rt: HostRuntime,
) -> Result<(), Fail> {
    let alloc = rt.alloc();
    for failing in 0..6u64 {
        let (status, out) = run(alloc, failing)?;
        let mut text = Vec::new(alloc);
        for (place, line) in REPORT.iter().enumerate() {
            if (place as u64) < failing {
                text.extend_from_slice(line.as_bytes())?;
            }
        }
        assert_eq!(rt;
            status,
            Status(if failing < 5 { 7 } else { 0 }),
            "{failing}"
        );
        assert_eq!(rt; out.bytes(), text.as_slice(), "{failing}");
    }
    Ok(())
}
