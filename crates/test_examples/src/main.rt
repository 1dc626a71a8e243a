// Runs the session of every example folder, and compares what it prints with what the folder expects.
#![tactic(auto)]

use std::{fs, io};
use transcript::session::session;

fn read(rt: &HostRuntime, folder: &str, file: &str) -> io::Result<Vec<u8>> {
    let path = format!(in rt.alloc(); "{folder}/{file}")?;
    fs::read(rt, path.as_str())
}

fn compare(rt: &HostRuntime, folder: &str) -> io::Result<()> {
    let quotes = read(rt, folder, "quotes.txt")?;
    let script = read(rt, folder, "script.txt")?;
    let expected = read(rt, folder, "expected.txt")?;
    let printed = session(rt.alloc(), quotes.as_slice(), script.as_slice())?;
    if printed.as_bytes() == expected.as_slice() {
        println!(rt; "{folder}: as expected")
    } else {
        println!(rt; "{folder}: not as expected, but\n{printed}")
    }
}

fn folders(rt: &HostRuntime) -> io::Result<Vec<String>> {
    let mut names = Vec::new(rt.alloc());
    for entry in fs::read_dir(rt, ".")? {
        let entry = entry?;
        names.push(String::from_str(rt.alloc(), entry.file_name())?)?;
    }
    names.sort()?;
    Ok(names)
}

fn main(rt: HostRuntime) -> io::Result<()> {
    let names = folders(&rt)?;
    for name in names.iter() {
        compare(&rt, name.as_str())?;
    }
    Ok(())
}
