//! What a client reads of a refusal.
ghost use Rattle.std.specs.Prelude.{◌≡◌, codes};
ghost use Rattle.mc_model.specs.declared.reply.Reply.TheVariants.{Refused};
ghost use Rattle.mc_model.specs.declared.reply.TheConstants.WireNo.{BAD_BLOCK, BAD_DELTA, BAD_FORMAT, LINE_TOO_LONG, LOG_FULL, NOT_A_NUMBER, NO_EXPIRY, NO_ROOM, OUT_OF_MEMORY, TOO_LARGE, UNKNOWN_COMMAND};
ghost use Rattle.mc_write.specs.Text.{text};

/// Each refusal has its own line, after memcached's doc/protocol.txt, "Error strings".
pub fn refusals_have_their_own_lines()
    ensures unknown_command { text (Refused UNKNOWN_COMMAND) ≡ codes "ERROR\r\n" }
    ensures bad_format { text (Refused BAD_FORMAT)
        ≡ codes "CLIENT_ERROR bad command line format\r\n" }
    ensures bad_block { text (Refused BAD_BLOCK) ≡ codes "CLIENT_ERROR bad data chunk\r\n" }
    ensures no_expiry { text (Refused NO_EXPIRY)
        ≡ codes "CLIENT_ERROR expiry is not supported\r\n" }
    ensures line_too_long { text (Refused LINE_TOO_LONG) ≡ codes "CLIENT_ERROR line too long\r\n" }
    ensures too_large { text (Refused TOO_LARGE)
        ≡ codes "SERVER_ERROR object too large for cache\r\n" }
    ensures no_room { text (Refused NO_ROOM)
        ≡ codes "SERVER_ERROR out of memory storing object\r\n" }
    ensures not_a_number { text (Refused NOT_A_NUMBER)
        ≡ codes "CLIENT_ERROR cannot increment or decrement non-numeric value\r\n" }
    ensures bad_delta { text (Refused BAD_DELTA)
        ≡ codes "CLIENT_ERROR invalid numeric delta argument\r\n" }
    ensures log_full { text (Refused LOG_FULL) ≡ codes "SERVER_ERROR log full\r\n" }
    ensures out_of_memory { text (Refused OUT_OF_MEMORY) ≡ codes "SERVER_ERROR out of memory\r\n" }
{}
