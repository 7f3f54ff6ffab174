// What `Digest` and `X-Ouinet-Data-Size` say, where they are good.
ghost use Rattle.std.specs.Prelude.{◌≡◌};
ghost use Rattle.end_fields.specs.Texts.{digest_of, data_size_of};

pub fn read_digest(value: &[u8]) -> Option<[u8; 32]>
    ensures { result ≡ digest_of value.now }
{
    if !text::starts_with(value, 0, b"SHA-256=") {
        return None;
    }
    base64_text::bytes(places::part(value, 8, value.len()))
}

pub fn read_data_size(value: &[u8]) -> Option<u64>
    ensures { result ≡ data_size_of value.now }
{
    number::decimal(value, limits::DATA_SIZE_DIGITS).ok()
}
