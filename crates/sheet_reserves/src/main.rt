// Reads a sheet from standard input and prints the reserves of an endowment on its basis, in every
// year and state.
#![tactic(auto)]

mod page;
mod run;
mod text;

use run::run;

fn main(rt: HostRuntime) -> anyhow::Result<()> {
    run(rt.alloc(), &mut rt.stdin(), &mut rt.stdout())
}
