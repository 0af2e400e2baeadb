// The engine: reads a sheet and commands from standard input, and answers each command in a line.
#![tactic(auto)]

mod run;

use run::run;

fn main(rt: HostRuntime) -> anyhow::Result<()> {
    run(rt.alloc(), &mut rt.stdin(), &mut rt.stdout())?;
    Ok(())
}
