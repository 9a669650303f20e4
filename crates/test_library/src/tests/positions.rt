//! Rows and columns inside of a character and past the end of a text. Those where nodes start and end are in `texts/`.

use super::{document_of, same};
use roxmltree::TextPos;

#[test]
fn places(rt: HostRuntime) {
    let document = document_of(&rt, "<é/>\n<!-- -->");
    for (place, row, col) in &[
        (1, 1, 2),
        (2, 1, 2),
        (3, 1, 3),
        (5, 1, 5),
        (6, 2, 1),
        (9999, 2, 9),
    ] {
        let position = document.text_pos_at(*place);
        same(&rt, "place", position, TextPos::new(*row, *col));
    }
}
