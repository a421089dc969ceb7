// Runs desk in the gate, whose programs have no status.
#![tactic(auto)]

fn main(rt: HostRuntime) {
    desk::run(&rt);
}
