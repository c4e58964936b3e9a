// Lines to standard output: each is put into an array of 160 bytes, which no line fills. A failed write is not reported: the output is then short.
use figures_text::put_counts;
use mesh::TriMesh;
use refusal::Refusal;
use slice_text::put;

// The first n bytes of a line.
pub(crate) fn write(line: &[u8], n: usize) {
    if line.len() < n {
        return;
    }
    io::write_all(1, &line[..n]);
}

// The counts of a mesh, or its refusal, after a title of n bytes that the line begins with; then the end of the line.
pub(crate) fn counts(line: &mut [u8], n: usize, made: Result<TriMesh, Refusal>) {
    let m = mesh_made::record_made(made);
    let mut to = put_counts(line, n, refusal::number(made), m);
    to = put(line, to, b"\n");
    write(line, to);
}
