// The check of a whole table.
ghost use Rattle.nalfipode.specs.Checks.{AuditOut};

// Value: 1 for yes.
pub fn nalfipode_audit(table: &[u32], values: &mut [u32; 1]) -> u32
    ensures { AuditOut table.now result values.new }
{
    match audit::audit(table) {
        Ok(yes) => {
            *values = [yes as u32];
            0
        }
        Err(e) => {
            *values = [0];
            e.number()
        }
    }
}
