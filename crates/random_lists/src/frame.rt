// The image, the marks and the table of widths that are lent to a call.
use widths::Widths;

#[derive(Drop)]
pub struct Frame<'a> {
    pub image: &'a mut [u8],
    pub marks: &'a mut [u64],
    pub widths: &'a Widths,
}
