// Newest-first and oldest-first beside a choice of one's own.

use anyhow::ensure;
use r2d2_core::reuse::{Move, compare, is_in_order};
use std::time::Duration;

fn ms(moment: u64) -> Duration {
    Duration::from_millis(moment)
}

pub fn compared<R: Print + AllocGlobal>(rt: &R) -> Result<(), anyhow::Error> {
    let idle = [ms(0), ms(10), ms(20), ms(30), ms(40)];
    let moves = [
        Move::Take(ms(50)),
        Move::Add(ms(60)),
        Move::Take(ms(70)),
        Move::Add(ms(80)),
    ];
    ensure!(is_in_order(&idle), "the idle list falls");
    match compare(rt.alloc(), &idle, &moves, &[0, 4], ms(110), ms(80))? {
        Some(c) => println!(rt;
            "newest-first {}, oldest-first {}, these picks {}",
            c.newest_first, c.oldest_first, c.other
        ),
        None => println!(rt; "a take has no pick"),
    }?;
    Ok(())
}
