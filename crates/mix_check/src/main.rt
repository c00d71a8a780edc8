// The mix check: vectors go in on standard input, and out comes each that our mixing step does not agree with, and how many do.
#![tactic(auto)]

use anyhow::anyhow;
use std::env;
use std::io::Read;
use vectors::{Score, differences, text_in, vectors_of};

fn main(rt: HostRuntime) -> anyhow::Result<()> {
    if env::args(&rt)?.count() > 1 {
        return Err(anyhow!(
            "usage: mix_check < VECTORS (the vectors are read from standard input)"
        ));
    }
    let mut input = Vec::new(rt.alloc());
    rt.stdin().read_to_end(&mut input)?;
    let vectors = vectors_of(text_in(input.as_slice())?, rt.alloc())?;
    for difference in &differences(vectors.as_slice(), rt.alloc())? {
        println!(&rt; "{difference}")?;
    }
    let score = Score::of(vectors.as_slice());
    println!(&rt; "{score}")?;
    if score.is_full() {
        Ok(())
    } else {
        Err(anyhow!("not all vectors agree"))
    }
}
