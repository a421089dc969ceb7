// Runs dm in the gate, whose programs have no status.
#![tactic(auto)]

fn main(rt: HostRuntime) {
    dm::run(&rt);
}
