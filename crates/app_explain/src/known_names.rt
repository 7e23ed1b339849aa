//! Says which processes and variables a session has.
ghost use Rattle.app_explain.specs.Peers.{process_names};
ghost use Rattle.std.specs.Prelude.{◌≡◌, [], slice_index_or};

use app_text::Text;
use pd_pred::Names;

/// The name of a process, which is counted from 0; it is empty if there is no such process.
pub(crate) fn name_at(names: &Names, process: usize) -> &str
    ensures { result.now ≡ slice_index_or (process_names names.now) process [] }
{
    if process < names.processes() {
        names.name(process)
    } else {
        ""
    }
}

/// The variables of a process, which is counted from 0; there are none if there is no such process.
fn vars_at(names: &Names, process: usize) -> &[String] {
    if process < names.processes() {
        names.vars(process)
    } else {
        &[]
    }
}

/// Says which processes there are.
pub(crate) fn say_processes(out: &mut Text, names: &Names) {
    for process in 0..names.processes() {
        out.say(if process == 0 { "" } else { ", " });
        out.say_name(names.name(process));
    }
}

/// Says which variables a process has.
pub(crate) fn say_vars(out: &mut Text, names: &Names, process: usize) {
    let vars = vars_at(names, process);
    for (index, var) in vars.iter().enumerate() {
        out.say(if index == 0 { "" } else { ", " });
        out.say_name(var.as_str());
    }
    if vars.is_empty() {
        out.say("none");
    }
}
