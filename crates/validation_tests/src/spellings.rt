//! Modules that the text format cannot express, or that it encodes in other bytes. They have large alignments, a data count
//! without segments, active segments that name the first table or memory, or a passive data segment without a data count.

use crate::answers::check_sections;

const ROWS: &str = "\
i32.load_of_alignment_32 | 010401600000 03020100 0503010001 0A0A01080041002820001A0B | invalid
i64.store_of_alignment_32 | 010401600000 03020100 0503010001 0A0B010900410042003720000B | invalid
i32.load_of_alignment_64 | 010401600000 03020100 0503010001 0A0A01080041002840001A0B | invalid
i64.store_of_alignment_64 | 010401600000 03020100 0503010001 0A0B010900410042003740000B | invalid
i32.load_of_alignment_4294967295 | 010401600000 03020100 0503010001 0A0E010C00410028FFFFFFFF0F001A0B | invalid
i64.store_of_alignment_4294967295 | 010401600000 03020100 0503010001 0A0F010D004100420037FFFFFFFF0F000B | invalid
memory.init_without_a_segment | 010401600000 03020100 0503010001 0C0100 0A0E010C00410041004100FC0800000B | invalid
data.drop_without_a_segment | 010401600000 03020100 0C0100 0A07010500FC09000B | invalid
active_segment_of_a_table | 010401600000 03020100 040401700001 090901020041000B000100 0A040102000B | valid
active_data_of_memory_0 | 0503010001 0B0801020041000B0161 | valid
passive_data_without_a_memory | 0B0401010161 | valid";

#[test]
fn answers_other_spellings(rt: HostRuntime) {
    check_sections(&rt, rt.alloc(), ROWS, 11);
}
