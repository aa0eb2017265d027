// A pool in a type of one's own.

use crate::Numbers;
use r2d2::{Builder, PlainPool, PoolRuntime};

/// A service over a pool. It is generic in the runtime, which `main` alone names.
#[derive(Drop)]
struct App<R: PoolRuntime> {
    pool: PlainPool<Numbers, R>,
}

impl<R: PoolRuntime> App<R> {
    fn new(rt: R) -> Result<App<R>, anyhow::Error> {
        let pool = Builder::new().max_size(2).build(rt, Numbers)?;
        Ok(App { pool })
    }

    /// The same service for another thread, over the same connections.
    fn try_clone(&self) -> Result<App<R>, anyhow::Error> {
        let pool = self.pool.try_clone()?;
        Ok(App { pool })
    }

    fn answer(&self) -> Result<u32, anyhow::Error> {
        let connection = self.pool.get()?;
        Ok(*connection)
    }
}

pub fn answered<R: PoolRuntime + Print>(rt: R) -> Result<(), anyhow::Error> {
    let app = App::new(rt)?;
    let other = app.try_clone()?;
    println!(rt; "{} and {}", app.answer()?, other.answer()?)?;
    Ok(())
}
