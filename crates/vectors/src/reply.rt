// An output frame: the refusal's number or the numbers that are given, and the blocks. The frames are those of reference/README.md.
use records::refusal::Refusal;

// A length as a frame has it.
fn length_of(block: &[u8]) -> u16 {
    (block.len() % 65536) as u16
}

// A frame that cannot be written has nobody to be told to.
fn put(rt: &impl Print, bytes: &[u8]) {
    let _ = rt.write_all(bytes);
}

fn put_number(rt: &impl Print, number: u16) {
    put(rt, &number.to_be_bytes());
}

fn put_blocks(rt: &impl Print, blocks: &[&[u8]]) {
    put(rt, &[(blocks.len() % 256) as u8]);
    for block in blocks {
        put_number(rt, length_of(block));
        put(rt, block);
    }
}

// The bytes of a frame after the two that say how many they are.
fn size_of(numbers: &[u16], blocks: &[&[u8]]) -> u16 {
    let head = 3 + 2 * (numbers.len() % 256) as u16;
    blocks.iter().fold(head, |size, block| {
        size.wrapping_add(2).wrapping_add(length_of(block))
    })
}

fn write_frame(rt: &impl Print, refusal: u8, numbers: &[u16], blocks: &[&[u8]]) {
    put_number(rt, size_of(numbers, blocks));
    put(rt, &[refusal, (numbers.len() % 256) as u8]);
    for number in numbers {
        put_number(rt, *number);
    }
    put_blocks(rt, blocks);
}

// Writes the numbers that are given, or the refusal, and the blocks.
pub fn write<const N: usize>(rt: &impl Print, answer: Result<[u16; N], Refusal>, blocks: &[&[u8]]) {
    match answer {
        Ok(numbers) => write_frame(rt, 0, &numbers, blocks),
        Err(refusal) => write_frame(rt, refusal.number(), &[], blocks),
    }
}
