// Reads a plan from standard input and writes its run: document 01, "The run program". One byte more than the longest plan
// is enough to see that a file is too long, however much follows.
#![tactic(auto)]

fn main() {
    let mut file = [0u8; 65537];
    let n = io::read_full(0, &mut file);
    let mut text = [0u8; 655360];
    if let Ok(k) = report::report(&file[..n], &mut text) {
        io::write_all(1, &text[..k]);
    }
}
