//! Which fault of a storage an error of the database is, or of a call on a file.

ghost use Rattle.std.specs.Prelude.{◌≡◌, ◌≢◌, Ok, Err, IfOk, IsErrOf};
ghost use Rattle.std.specs.IoError.{error_kind};

use sqlite::{Error, ErrorCode};
use stable::StableFault;
use std::io::{self, ErrorKind};

/// Want of memory is told as such. Any other refusal is the device's.
pub fn fault_of(error: &Error) -> StableFault
    ensures memory { error.now ≡ Error.SqliteFailure ErrorCode.OutOfMemory
        → result ≡ StableFault.Memory }
    ensures device { error.now ≢ Error.SqliteFailure ErrorCode.OutOfMemory
        → result ≡ StableFault.Device }
    ensures not_damaged { result ≢ StableFault.Damaged }
{
    match error {
        Error::SqliteFailure(ErrorCode::OutOfMemory) => StableFault::Memory,
        _ => StableFault::Device,
    }
}

/// What a call on a database gave, or the fault that its error is. What it left besides the error is dropped.
pub fn or_fault<T, R: Drop>(outcome: Result<T, (Error, R)>) -> Result<T, StableFault>
    ensures given { IfOk result (λ value. outcome ≡ Ok value) }
    ensures ok { (value : T) → outcome ≡ Ok value → result ≡ Ok value }
    ensures memory { (rest : R) → outcome ≡ Err (Error.SqliteFailure ErrorCode.OutOfMemory, rest)
        → IsErrOf result StableFault.Memory }
    ensures device { (error : Error) → (rest : R) → error ≢ Error.SqliteFailure ErrorCode.OutOfMemory
        → outcome ≡ Err (error, rest) → IsErrOf result StableFault.Device }
    ensures not_damaged { ¬ IsErrOf result StableFault.Damaged }
{
    match outcome {
        Ok(value) => Ok(value),
        Err((error, _)) => Err(fault_of(&error)),
    }
}

/// The same of an error of the system.
pub fn file_fault_of(error: &io::Error) -> StableFault
    ensures memory { error_kind error.now ≡ ErrorKind.OutOfMemory → result ≡ StableFault.Memory }
    ensures device { error_kind error.now ≢ ErrorKind.OutOfMemory → result ≡ StableFault.Device }
    ensures not_damaged { result ≢ StableFault.Damaged }
{
    match error.kind() {
        ErrorKind::OutOfMemory => StableFault::Memory,
        _ => StableFault::Device,
    }
}
