//! A first program with the pool: SQL databases in memory, lent one at a time.
#![tactic(auto)]

use r2d2::{Builder, ManageConnection};
use sqlite::{Connection, Error, MemStore, params};
use std::alloc::Global;
use std::time::Duration;

/// Opens databases in memory, each connection one of its own, with an empty table of visits.
#[derive(Drop)]
struct Databases {
    alloc: Global,
}

impl ManageConnection for Databases {
    type Connection = Connection<MemStore>;

    type Error = Error;

    type Extension = ();

    fn connect(&self) -> Result<Connection<MemStore>, Error> {
        let mut database = Connection::open_in_memory(self.alloc)?;
        database.execute_batch("CREATE TABLE visit (name TEXT NOT NULL) STRICT")?;
        Ok(database)
    }

    fn is_valid(&self, database: &mut Connection<MemStore>) -> Result<(), Error> {
        database.query_row("SELECT 1", &[])?;
        Ok(())
    }

    fn has_broken(&self, _database: &mut Connection<MemStore>) -> bool {
        false
    }
}

fn main(rt: HostRuntime) -> Result<(), anyhow::Error> {
    let manager = Databases { alloc: rt.alloc() };
    let pool = Builder::new()
        .max_size(2)
        .connection_timeout(Duration::from_secs(5))
        .build(rt, manager)?;

    let mut database = pool.get()?;
    database.execute("INSERT INTO visit (name) VALUES (?1)", params!["Ada"])?;
    println!(rt; "{:?}", pool.state())?;
    // It goes back to the pool, and is lent next: the newest comes first by default.
    drop(database);

    let mut database = pool.get()?;
    let name: String = database.query_row("SELECT name FROM visit", &[])?.get(0)?;
    println!(rt; "found {name}")?;
    drop(database);
    println!(rt; "{:?}", pool.state())?;
    Ok(())
}
