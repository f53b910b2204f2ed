//! Benchmarks. With no words it does nothing; the word `disk`, `extents`, `inodes`, `log`, `map`, `names` or `tx` picks one.
#![tactic(auto)]

mod disk;
mod extents;
mod inodes;
mod log;
mod map;
mod names;
mod store;
mod tx;

use std::{env, io};

fn main(rt: HostRuntime) -> io::Result<()> {
    for word in env::args(&rt)?.skip(1) {
        match word.as_str() {
            "disk" => disk::time_disk(&rt)?,
            "extents" => extents::time_extents(&rt)?,
            "inodes" => inodes::time_inodes(&rt)?,
            "log" => log::time_log(&rt)?,
            "map" => map::time_map(&rt)?,
            "names" => names::time_names(&rt)?,
            "tx" => tx::time_tx(&rt)?,
            _ => {}
        }
    }
    Ok(())
}
