// Prints the figures of docs/SCOPE.md, "Figures", each computed by the library.
#![tactic(auto)]

mod arcs_and_roots;
mod drawings;
mod drawn;
mod extremes;
mod outlines;
mod records;
mod written;

fn main() {
    drawings::boxes();
    outlines::all();
    arcs_and_roots::all();
    drawings::spheres();
    drawings::cylinders();
    drawings::unit_cylinders();
    extremes::all();
}
