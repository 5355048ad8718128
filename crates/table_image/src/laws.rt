//! Laws of images, over their definitions alone. They run no code, and take no memory.

ghost use Rattle.table_image.specs.Laws.{OneSpelling, ReadsFirstBytes, ReadsImages};

/// In each version a pair has at most one image, and no two pairs share one.
pub fn a_pair_has_one_spelling()
    ensures { OneSpelling }
{}

/// Bytes without a failing check are the image of the pair that is read, and every image has none.
pub fn what_has_no_fault_is_an_image()
    ensures { ReadsImages }
{}

/// No image has more than 1,073,743,400 bytes, and bytes that come after more than so many change
/// no answer.
pub fn no_image_is_longer()
    ensures { ReadsFirstBytes }
{}
