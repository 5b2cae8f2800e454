/// What is written after an instruction's name.
#[derive(Clone, Copy)]
pub enum Immediates {
    Nothing,
    /// The type of a block.
    Block,
    Index,
    /// The labels of a branch table, the default one last.
    Labels,
    /// A table, which may be omitted for the first one, and the type of the function in it.
    Indirect,
    /// The types of a selection, if it has any.
    Selection,
    /// A table, which may be omitted for the first one.
    Table,
    /// The table that is written, and the one that is read.
    TableCopy,
    /// A table, which may be omitted for the first one, and the element segment.
    TableInit,
    /// Nothing. The bytes have the first memory.
    Memory,
    /// Nothing. The bytes have the first memory twice.
    MemoryCopy,
    /// The data segment. The bytes also have the first memory.
    MemoryInit,
    /// The offset and the alignment of an access with this natural alignment.
    Access(u64),
    /// A type of references.
    Reference,
    Constant32,
    Constant64,
}

/// An instruction: its opcode, which has two bytes if it is above 0xFF, and what is written after its name.
#[derive(Clone, Copy)]
pub struct Instruction {
    pub opcode: u16,
    pub immediates: Immediates,
}

// Each row has a name, the opcode in hexadecimal, and what is written after the name, if anything is. Of the two opcodes of
// `select`, this is the one without types.
const INSTRUCTIONS: &str = "\
unreachable 00
nop 01
block 02 block
loop 03 block
if 04 block
else 05
end 0B
br 0C index
br_if 0D index
br_table 0E labels
return 0F
call 10 index
call_indirect 11 indirect
return_call 12 index
return_call_indirect 13 indirect
drop 1A
select 1B selection
local.get 20 index
local.set 21 index
local.tee 22 index
global.get 23 index
global.set 24 index
table.get 25 table
table.set 26 table
i32.load 28 access4
i64.load 29 access8
i32.load8_s 2C access1
i32.load8_u 2D access1
i32.load16_s 2E access2
i32.load16_u 2F access2
i64.load8_s 30 access1
i64.load8_u 31 access1
i64.load16_s 32 access2
i64.load16_u 33 access2
i64.load32_s 34 access4
i64.load32_u 35 access4
i32.store 36 access4
i64.store 37 access8
i32.store8 3A access1
i32.store16 3B access2
i64.store8 3C access1
i64.store16 3D access2
i64.store32 3E access4
memory.size 3F memory
memory.grow 40 memory
i32.const 41 constant32
i64.const 42 constant64
i32.eqz 45
i32.eq 46
i32.ne 47
i32.lt_s 48
i32.lt_u 49
i32.gt_s 4A
i32.gt_u 4B
i32.le_s 4C
i32.le_u 4D
i32.ge_s 4E
i32.ge_u 4F
i64.eqz 50
i64.eq 51
i64.ne 52
i64.lt_s 53
i64.lt_u 54
i64.gt_s 55
i64.gt_u 56
i64.le_s 57
i64.le_u 58
i64.ge_s 59
i64.ge_u 5A
i32.clz 67
i32.ctz 68
i32.popcnt 69
i32.add 6A
i32.sub 6B
i32.mul 6C
i32.div_s 6D
i32.div_u 6E
i32.rem_s 6F
i32.rem_u 70
i32.and 71
i32.or 72
i32.xor 73
i32.shl 74
i32.shr_s 75
i32.shr_u 76
i32.rotl 77
i32.rotr 78
i64.clz 79
i64.ctz 7A
i64.popcnt 7B
i64.add 7C
i64.sub 7D
i64.mul 7E
i64.div_s 7F
i64.div_u 80
i64.rem_s 81
i64.rem_u 82
i64.and 83
i64.or 84
i64.xor 85
i64.shl 86
i64.shr_s 87
i64.shr_u 88
i64.rotl 89
i64.rotr 8A
i32.wrap_i64 A7
i64.extend_i32_s AC
i64.extend_i32_u AD
i32.extend8_s C0
i32.extend16_s C1
i64.extend8_s C2
i64.extend16_s C3
i64.extend32_s C4
ref.null D0 reference
ref.is_null D1
ref.func D2 index
memory.init FC08 memory_init
data.drop FC09 index
memory.copy FC0A memory_copy
memory.fill FC0B memory
table.init FC0C table_init
elem.drop FC0D index
table.copy FC0E table_copy
table.grow FC0F table
table.size FC10 table
table.fill FC11 table";

// The words of the last column.
static COLUMNS: [(&str, Immediates); 18] = [
    ("block", Immediates::Block),
    ("index", Immediates::Index),
    ("labels", Immediates::Labels),
    ("indirect", Immediates::Indirect),
    ("selection", Immediates::Selection),
    ("table", Immediates::Table),
    ("table_copy", Immediates::TableCopy),
    ("table_init", Immediates::TableInit),
    ("memory", Immediates::Memory),
    ("memory_copy", Immediates::MemoryCopy),
    ("memory_init", Immediates::MemoryInit),
    ("access1", Immediates::Access(1)),
    ("access2", Immediates::Access(2)),
    ("access4", Immediates::Access(4)),
    ("access8", Immediates::Access(8)),
    ("reference", Immediates::Reference),
    ("constant32", Immediates::Constant32),
    ("constant64", Immediates::Constant64),
];

// Returns the meaning of a word of the last column.
fn immediates_of(column: &str) -> Immediates {
    for (word, immediates) in &COLUMNS {
        if *word == column {
            return *immediates;
        }
    }
    Immediates::Nothing
}

fn opcode_of(digits: &str) -> u16 {
    u16::from_str_radix(digits, 16).unwrap_or(0)
}

fn instruction_in(row: &str, name: &str) -> Option<Instruction> {
    match row.split_once(' ') {
        Some((front, others)) if front == name => {
            let (digits, column) = others.split_once(' ').unwrap_or((others, ""));
            Some(Instruction {
                opcode: opcode_of(digits),
                immediates: immediates_of(column),
            })
        }
        _ => None,
    }
}

/// Returns the instruction of a name.
pub fn instruction_named(name: &str) -> Option<Instruction> {
    for row in INSTRUCTIONS.lines() {
        let found = instruction_in(row, name);
        if found.is_some() {
            return found;
        }
    }
    None
}
