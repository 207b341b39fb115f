// Reads a book on standard input, in parts, and prints a text line per line record, then the last word. Remarks go to standard error.
#![tactic(auto)]

use line_rows::Form;

fn main(rt: HostRuntime) {
    lister::pump::run(&rt, Form::Listing);
}
