// Taking bytes of a piece at once: as many of the next bytes as change only the present place of the innermost chunk and the number of its items. What is
// held afterwards is what the machine holds after these bytes, taken one by one.
#![tactic(auto)]

pub mod passing;
