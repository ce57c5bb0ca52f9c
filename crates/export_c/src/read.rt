// Reads a sheet back to the numbers of its plan.
ghost use Rattle.readback.specs.Read.{read_of};
ghost use Rattle.numbers.specs.Read.{RowCall};

// Writes the numbers of the plan whose sheet these bytes are, and answers its chip. Refusals: 18, 26.
#[unsafe(no_mangle)]
pub extern "C" fn dizbaral_read_sheet(sheet: &[u8], reading: u8, plan: &mut [u32; 48]) -> u64
    ensures { RowCall (read_of sheet.now reading) plan.old result plan.new }
{
    export::read::dizbaral_read_sheet(sheet, reading, plan)
}
