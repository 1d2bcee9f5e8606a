// The laws between letters and blocks, and the worked examples, each as a promise of a call.
ghost use Rattle.block.specs.Laws.{Corresponds, Examples};

// What was written reads back as the same letter, and what was read is written as the same 512 bytes;
// so each letter has just one block, and two letters with one block are one letter.
pub fn letters_and_blocks_correspond()
    ensures { Corresponds }
{}

// Letter 1.0.1 has check 14, and 1,990 with the one byte 7; 3.1.1, which names 0.2.1 and 1.0.1, has mask 260
// and check 203; a block of zeros is refused with 22 at place 0.
pub fn worked_examples()
    ensures { Examples }
{}
