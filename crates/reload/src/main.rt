//! Loads a site file over the site of another, and says after each load what the site holds.
//!
//! With memory both files load. Where an allocation fails, the site is to be as it was; `tools/runs` has each fail in turn.
#![tactic(auto)]

use loops::load_fault::LoadFault;
use site::site::Site;
use site_write::write::write_site;
use std::io;

/// A region loop of two regions, and a contract loop.
const FIRST: [u8; 23] = [
    76, 75, 84, 0, 1, 2, 1, 2, 1, 2, 0, 3, 0, 1, 2, 2, 0, 1, 2, 1, 2, 1, 2,
];

/// Two region loops of one region each.
const SECOND: [u8; 22] = [
    76, 75, 84, 0, 1, 2, 1, 1, 1, 2, 0, 1, 0, 1, 1, 1, 1, 2, 0, 1, 0, 1,
];

fn outcome(loaded: Result<(), LoadFault>) -> &'static str {
    match loaded {
        Ok(()) => "loaded",
        Err(LoadFault::File(_)) => "refused",
        Err(LoadFault::Memory) => "no memory",
    }
}

/// Which file the site is the site of, told by the bytes that it is written as.
fn holds(site: &Site) -> &'static str {
    let mut buffer = [0; 32];
    let Ok(n) = write_site(site, &mut buffer) else {
        return "nothing";
    };
    match buffer.get(..n) {
        Some(bytes) if bytes == FIRST.as_slice() => "the first",
        Some(bytes) if bytes == SECOND.as_slice() => "the second",
        _ => "something else",
    }
}

fn load(rt: &HostRuntime, site: &mut Site, file: &[u8]) -> io::Result<()> {
    let outcome = outcome(site.load(rt.alloc(), file));
    let holds = holds(site);
    println!(rt; "{outcome}, holds {holds}")
}

fn main(rt: HostRuntime) -> io::Result<()> {
    let mut site = Site::new();
    load(&rt, &mut site, &FIRST)?;
    load(&rt, &mut site, &SECOND)
}
