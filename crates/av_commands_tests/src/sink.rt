//! Files handed to a sink that keeps them.
ghost use Rattle.std.specs.Prelude.{◌≡◌, [], ◌∷◌, ◌++◌, OnOk, OnErr, None, Some, false, map, string_bytes};
ghost use Rattle.av_sink.specs.Account.{file_named};

use crate::expecting::expect_equal;
use av_region_files::{RegionFile, region_name};
use av_sink::{NoTeller, Sink, SinkFailed, save_all};
use av_types::RegionPos;
use std::alloc::{AllocError, Global};
use std::process::Abort;
use std::test::Fail;

/// A file that was handed over.
#[derive(Drop)]
struct Kept {
    name: String,
    bytes: Vec<u8>,
}

fn keep(alloc: Global, files: &mut Vec<Kept>, name: &str, bytes: &[u8]) -> Result<(), AllocError>
    ensures ok { OnOk result (map (λ f. file_named (string_bytes f.name) f.bytes.items) files.new.items
        ≡ map (λ f. file_named (string_bytes f.name) f.bytes.items) files.old.items ++ file_named name.now bytes.now ∷ []) }
    ensures err { OnErr result (files.new.items ≡ files.old.items) }
{
    let name = String::from_str(alloc, name)?;
    let bytes = Vec::from_slice(alloc, bytes)?;
    files.push(Kept { name, bytes })?;
    Ok(())
}

/// A sink that keeps its files. Each write fails once it has a number of files.
#[derive(Drop)]
struct Memory {
    alloc: Global,
    files: Vec<Kept>,
    failures: u64,
    handed: u64,
    full_at: u64,
}

impl Sink for Memory {
    ghost account = { λ s. record { folder = None; repair = None; failures = s.failures; handed = s.handed; committed = false; closed = false; kept = Some (map (λ f. file_named (string_bytes f.name) f.bytes.items) s.files.items) } };

    fn failures(&self) -> u64 {
        self.failures
    }

    fn handed(&self) -> u64 {
        self.handed
    }

    fn write_file(&mut self, name: &str, bytes: &[u8]) -> Result<(), SinkFailed> {
        if self.handed == self.full_at {
            self.failures += 1;
            return Err(SinkFailed);
        }
        match keep(self.alloc, &mut self.files, name, bytes) {
            Ok(()) => {
                self.handed += 1;
                Ok(())
            }
            Err(_) => {
                self.failures += 1;
                Err(SinkFailed)
            }
        }
    }
}

/// The names of three files, whose bytes are `0`, `1` and `2`.
const NAMES: [&str; 3] = ["r.0.0.mca", "r.-1.2.mca", "r.5.-7.mca"];

fn three(alloc: Global) -> Result<Vec<RegionFile>, AllocError> {
    let mut files = Vec::new(alloc);
    for (x, z, byte) in [(0, 0, b'0'), (-1, 2, b'1'), (5, -7, b'2')] {
        files.push(RegionFile {
            pos: RegionPos { x, z },
            bytes: vec![in alloc; byte]?,
        })?;
    }
    Ok(files)
}

/// That the sink has the first files, as many as it counts, and no other.
fn has_the_first(rt: &impl Abort, sink: &Memory) {
    expect_equal(rt, sink.files.len() as u64, sink.handed());
    for (file, (name, byte)) in sink.files.iter().zip(NAMES.iter().zip(b"012".iter())) {
        expect_equal(rt, file.name.as_str(), *name);
        expect_equal(rt, file.bytes.as_slice(), [*byte].as_slice());
    }
}

#[test]
fn each_file_once_under_its_name(rt: HostRuntime) -> Result<(), Fail> {
    let alloc = rt.alloc();
    let mut sink = Memory {
        alloc,
        files: Vec::new(alloc),
        failures: 0,
        handed: 0,
        full_at: 3,
    };
    let files = three(alloc)?;
    save_all(alloc, &mut sink, files.as_slice(), &NoTeller)?;
    expect_equal(&rt, sink.handed(), 3);
    expect_equal(&rt, sink.failures(), 0);
    has_the_first(&rt, &sink);
    expect_equal(
        &rt,
        region_name(alloc, RegionPos { x: 5, z: -7 })?.as_str(),
        "r.5.-7.mca",
    );
    Ok(())
}

#[test]
fn a_write_that_fails(rt: HostRuntime) -> Result<(), Fail> {
    let alloc = rt.alloc();
    let lines = [
        "fault 25: Device r.0.0.mca",
        "fault 25: Device r.-1.2.mca",
        "fault 25: Device r.5.-7.mca",
    ];
    for (full_at, line) in lines.iter().enumerate() {
        let mut sink = Memory {
            alloc,
            files: Vec::new(alloc),
            failures: 0,
            handed: 0,
            full_at: full_at as u64,
        };
        let files = three(alloc)?;
        let fault = save_all(alloc, &mut sink, files.as_slice(), &NoTeller)
            .err()
            .ok_or("no fault")?;
        expect_equal(&rt, fault.to_string(alloc)?.as_str(), *line);
        expect_equal(&rt, sink.handed(), full_at as u64);
        expect_equal(&rt, sink.failures(), 1);
        has_the_first(&rt, &sink);
    }
    Ok(())
}
