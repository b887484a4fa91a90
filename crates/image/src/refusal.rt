// Why an image does not open. The slots are counted from 1; 0 stands for the header, as it is printed.
#[derive(Clone, Copy)]
pub enum Refusal {
    // It is shorter than 4 bytes or longer than 4,194,304.
    Size,
    // It has more than 256 slots, or they reach past its end.
    Slots,
    // The slot holds a chain index past the slots, or one that was there before.
    Link(u16),
    // The slot's path or text reaches past the end, or its text is longer than 262,144 bytes.
    Part(u16),
    // The slot's path is no store path that ends in `.drv`.
    Path(u16),
    // The slot's path is that of an earlier file.
    Repeated(u16),
}
