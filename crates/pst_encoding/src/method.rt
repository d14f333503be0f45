//! The methods of encoding.

/// A method by which the bodies of a file's data blocks are encoded ([MS-PST] 2.2.2.6, bCryptMethod).
#[derive(Clone, Copy, Debug, PartialEq, Eq)]
pub enum Method {
    /// 1, NDB_CRYPT_PERMUTE: permutation ([MS-PST] 5.1).
    Permute,
    /// 2, NDB_CRYPT_CYCLIC: the cyclic algorithm ([MS-PST] 5.2).
    Cyclic,
}

impl Method {
    ghost use Rattle.std.specs.Prelude.{◌≡◌};
    ghost use Rattle.pst_encoding.specs.Method.{method_number, method_with};

    /// The method of a number, as bCryptMethod says it; of any other there is none.
    pub fn of(number: u8) -> Option<Method>
        ensures { result ≡ method_with number }
    {
        match number {
            1 => Some(Method::Permute),
            2 => Some(Method::Cyclic),
            _ => None,
        }
    }

    /// The number of the method.
    pub fn number(self) -> u8
        ensures { result ≡ method_number self }
    {
        match self {
            Method::Permute => 1,
            Method::Cyclic => 2,
        }
    }
}
