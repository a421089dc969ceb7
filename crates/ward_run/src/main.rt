// Runs ward in the gate, whose programs have no status.
#![tactic(auto)]

fn main(rt: HostRuntime) {
    ward_command::run(&rt);
}
