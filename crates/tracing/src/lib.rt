// No function is here: every changed place's cause is traced to the edited device.
#![tactic(auto)]
