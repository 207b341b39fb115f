// Reads a book on standard input, in parts, and writes a sheet of its lines for the spreadsheet. The last word and remarks go to standard error.
#![tactic(auto)]

use line_rows::Form;

fn main(rt: HostRuntime) {
    lister::pump::run(&rt, Form::Sheet);
}
