//! `forkhost`, the core of a Git host for many tenants: names objects, serves request frames from
//! standard input to standard output or at a Unix socket, and checks or upgrades the folder that keeps
//! a host.
#![tactic(auto)]

use fork_program::{Untold, program, tell_cause, tell_rights};
use std::alloc::Global;
use std::fs::{File, Files};
use std::io::{BufReader, BufWriter, Write};
use std::net::Net;
use std::process::ExitCode;
use std::random::RandomSource;
use std::rt::{Clock, Env};
use std::{env, io};

// The arguments of the process. If one of them is not UTF-8, reports that and returns `None`.
fn arguments<R: Env + AllocGlobal + Eprint>(rt: &R) -> io::Result<Option<Vec<String>>> {
    let args = match env::args(rt) {
        Ok(args) => args,
        Err(error) => {
            if error.kind() != io::ErrorKind::InvalidData {
                return Err(error);
            }
            let _told = rt.eprint("forkhost: an argument is not UTF-8\n");
            return Ok(None);
        }
    };
    let mut texts = Vec::new(rt.alloc());
    for text in args {
        texts.push(text)?;
    }
    Ok(Some(texts))
}

// The length of a block that glibc maps on its own, because it is longer than glibc's limit for its heap.
const MAPPED: usize = 33_000_000;

// Keeps freed memory for later use, up to twice such a block. glibc follows the longest block mapped
// on its own that was ever freed (mallopt(3), M_MMAP_THRESHOLD). Until one is freed, it returns the
// memory of each long answer to the kernel, which then clears every page for the next one. No page of
// the block itself is touched.
fn keep_memory(alloc: Global) {
    let _block = Vec::<u8>::with_capacity(alloc, MAPPED);
}

// Opens files in place of closed standard streams, so that no file of a folder gets their numbers. Reading
// from them reports the end of the input, and writing to them fails.
fn hold_streams<R: Files<File = File>>(
    rt: &R,
) -> (io::Result<File>, io::Result<File>, io::Result<File>) {
    let first = File::open(rt, "/dev/null");
    let second = File::open(rt, "/dev/null");
    (first, second, File::open(rt, "/dev/null"))
}

// Reports on standard error if the folder of a host that is about to start is open to others. A failure to
// report is ignored.
fn tell_open<R: AllocGlobal + Eprint + Files>(rt: &R, words: &[&str]) -> io::Result<()> {
    let alloc = rt.alloc();
    let mut told = Vec::new(alloc);
    let _told = tell_rights(rt, alloc, words, &mut told);
    rt.eprint(String::from_utf8_lossy(alloc, told.as_slice())?)
}

// Runs the program on these words and returns its exit status, even if nothing can be reported.
fn ended<R: AllocGlobal + Input + Print + Eprint + Files<File = File> + Net + RandomSource + Clock>(
    rt: &R,
    words: &[&str],
) -> io::Result<u8> {
    let alloc = rt.alloc();
    let _streams = hold_streams(rt);
    keep_memory(alloc);
    let _told = tell_open(rt, words);
    let mut reader = BufReader::new(alloc, rt.reader())?;
    let mut writer = BufWriter::new(alloc, io::writer(rt))?;
    let mut faults = Vec::new(alloc);
    let status = match program(rt, words, &mut reader, &mut writer, &mut faults) {
        Ok(status) => status,
        Err(Untold { status }) => status,
    };
    let _caused = tell_cause(rt, alloc, words, &mut faults);
    let _told = rt.eprint(String::from_utf8_lossy(alloc, faults.as_slice())?);
    Ok(status)
}

// Runs the program on the arguments of the process.
fn started<
    R: Env + AllocGlobal + Input + Print + Eprint + Files<File = File> + Net + RandomSource + Clock,
>(rt: &R) -> io::Result<u8> {
    let Some(texts) = arguments(rt)? else {
        return Ok(2);
    };
    let mut words = Vec::new(rt.alloc());
    for text in &texts {
        words.push(text.as_str())?;
    }
    ended(rt, words.as_slice())
}

fn main(rt: HostRuntime) -> io::Result<ExitCode> {
    match started(&rt) {
        Ok(status) => Ok(ExitCode::from(status)),
        Err(_) => {
            eprintln!(rt; "forkhost: memory")?;
            Ok(ExitCode::from(1))
        }
    }
}
