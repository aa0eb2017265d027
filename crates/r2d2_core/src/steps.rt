// A count of steps, so that a contract can bound what a call does.

pub use pool_machine::steps::Steps;
